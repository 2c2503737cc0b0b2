//! What the variables of a thread stand for.

ghost use Rattle.std.specs.Prelude.{◌≡◌, ◌∷◌, [], ℕ, List, OnOk};
ghost use Rattle.script_wishes.specs.Seen.{variable_seen};
ghost use Rattle.script_wishes.specs.Variables.{locale_variable, catalog_variable, bound, bound_name};

use lc_base::{ByteText, Handle};
use std::alloc::{AllocError, Global};
use std::collections::BTreeMap;
use std::marker::Model;

/// What the handle of a variable is of. A name may stand for one of either.
#[derive(Clone, Copy)]
pub enum Space {
    /// A locale object.
    Locales,
    /// A message catalog.
    Catalogs,
}

/// A variable: a name in a space.
#[derive(Clone, Copy)]
pub struct Variable<'a> {
    pub space: Space,
    pub name: &'a [u8],
}

/// The variable of a locale object with this name.
pub fn locale_variable(name: &ByteText) -> Variable<'_>
    ensures { variable_seen result ≡ locale_variable name.now }
{
    Variable {
        space: Space::Locales,
        name: name.as_bytes(),
    }
}

/// The variable of a message catalog with this name.
pub fn catalog_variable(name: &ByteText) -> Variable<'_>
    ensures { variable_seen result ≡ catalog_variable name.now }
{
    Variable {
        space: Space::Catalogs,
        name: name.as_bytes(),
    }
}

/// Names, each with the handle that it was last bound to.
#[derive(Drop)]
struct Names {
    handles: BTreeMap<Vec<u8>, Handle>,
}

impl Model for Names {
    ghost use Rattle.std.specs.Prelude.{List, ℕ, map};
    ghost use Rattle.lc_base.specs.declared.handle.Handle.{Handle};
    ghost use Rattle.script_wishes.specs.Variables.{binding_of};

    ghost Value = { List (List ℕ × Handle) };

    ghost view = { λ v. map binding_of v.handles.entries };
}

impl Names {
    fn new(alloc: Global) -> Names
        ensures { result ≡ [] }
    {
        Names {
            handles: BTreeMap::new(alloc),
        }
    }

    /// What a name stands for.
    fn get(&self, name: &[u8]) -> Option<Handle>
        ensures { result ≡ bound_name self.now name.now }
    {
        match self.handles.get(name) {
            Some(handle) => Some(*handle),
            None => None,
        }
    }

    /// Binds a name to a handle; an older binding of it is dropped. A name that is bound is not copied
    /// again.
    fn bind(&mut self, alloc: Global, name: &[u8], handle: Handle) -> Result<(), AllocError>
        ensures { OnOk result ((n : List ℕ) → bound_name self.new n ≡ bound_name ((name.now, handle) ∷ self.old) n) }
    {
        match self.handles.get_mut(name) {
            Some(bound) => {
                *bound = handle;
                Ok(())
            }
            None => self.insert(alloc, name, handle),
        }
    }

    /// Binds a copy of a name to a handle.
    fn insert(&mut self, alloc: Global, name: &[u8], handle: Handle) -> Result<(), AllocError>
        ensures { OnOk result ((n : List ℕ) → bound_name self.new n ≡ bound_name ((name.now, handle) ∷ self.old) n) }
    {
        let name = Vec::from_slice(alloc, name)?;
        self.handles.insert(name, handle)?;
        Ok(())
    }
}

/// Variables, each with the handle that it was last bound to.
pub struct Variables {
    locales: Names,
    catalogs: Names,
}

impl Drop for Variables {
    fn drop(self) {
        let Variables {
            locales: _,
            catalogs: _,
        } = self;
    }
}

impl Model for Variables {
    ghost use Rattle.std.specs.Prelude.{◌++◌};
    ghost use Rattle.script_wishes.specs.declared.variables.Space.TheVariants as spaces;
    ghost use Rattle.script_wishes.specs.Variables.{Bindings, in_space};

    ghost Value = { Bindings };

    ghost view = { λ v. in_space spaces.Locales v.locales ++ in_space spaces.Catalogs v.catalogs };
}

impl Variables {
    pub fn new(alloc: Global) -> Variables
        ensures { result ≡ [] }
    {
        Variables {
            locales: Names::new(alloc),
            catalogs: Names::new(alloc),
        }
    }

    /// What a variable stands for.
    pub fn get(&self, variable: Variable<'_>) -> Option<Handle>
        ensures { result ≡ bound self.now (variable_seen variable.entry) }
    {
        match variable.space {
            Space::Locales => self.locales.get(variable.name),
            Space::Catalogs => self.catalogs.get(variable.name),
        }
    }

    /// Binds a variable to a handle; an older binding of it is dropped.
    pub fn bind(
        &mut self,
        alloc: Global,
        variable: Variable<'_>,
        handle: Handle,
    ) -> Result<(), AllocError>
        ensures { OnOk result ((v : _) → bound self.new v ≡ bound ((variable_seen variable.entry, handle) ∷ self.old) v) }
    {
        match variable.space {
            Space::Locales => self.bind_locale(alloc, variable.name, handle),
            Space::Catalogs => self.bind_catalog(alloc, variable.name, handle),
        }
    }

    fn bind_locale(&mut self, alloc: Global, name: &[u8], handle: Handle) -> Result<(), AllocError>
        ensures { OnOk result ((v : _) → bound self.new v ≡ bound ((locale_variable name.now, handle) ∷ self.old) v) }
    {
        self.locales.bind(alloc, name, handle)?;
        Ok(())
    }

    fn bind_catalog(&mut self, alloc: Global, name: &[u8], handle: Handle) -> Result<(), AllocError>
        ensures { OnOk result ((v : _) → bound self.new v ≡ bound ((catalog_variable name.now, handle) ∷ self.old) v) }
    {
        self.catalogs.bind(alloc, name, handle)?;
        Ok(())
    }
}
