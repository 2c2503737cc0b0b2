//! The lines of a category: those of the file, and those of the files that it copies.

use charset::Charset;
use gnu_read::{
    Draft, GnuFile, GnuSection, Notes, Origin, Reading, SourceFault, add_line, copied_from, in_file,
};
use lc_base::{Category, Reason, is_posix_locale};
use std::alloc::Global;

/// A file with the name by which others copy it.
#[derive(Clone, Copy)]
pub struct Named<'a> {
    pub name: &'a [u8],
    pub text: &'a [u8],
}

/// The files of a system's sources, and what is read of each.
#[derive(Clone, Copy)]
pub struct Files<'a> {
    pub alloc: Global,
    pub charset: &'a Charset,
    pub named: &'a [Named<'a>],
    pub read: &'a [GnuFile],
}

/// The section of a category.
pub fn section_of(file: &GnuFile, category: Category) -> Option<GnuSection> {
    file.sections.iter().copied().find(|section| {
        section
            .category
            .is_some_and(|other| other.bit() == category.bit())
    })
}

impl Files<'_> {
    /// The number of the first file of a name that has a section of a category.
    fn number_of(&self, name: &[u8], category: Category) -> Option<usize> {
        for (number, file) in self.named.iter().enumerate() {
            let read = self.read.get(number)?;
            if file.name == name && section_of(read, category).is_some() {
                return Some(number);
            }
        }
        None
    }

    /// The number of the file that another one copies for a category, if it copies one that is there.
    fn next_number(
        &self,
        category: Category,
        number: usize,
    ) -> Result<Option<(Origin, usize)>, SourceFault> {
        let Some(file) = self.read.get(number) else {
            return Ok(None);
        };
        let copied = match copied_from(self.alloc, self.charset, file, category) {
            Ok(Some(copied)) => copied,
            Ok(None) => return Ok(None),
            Err(fault) => return Err(in_file(number, fault)),
        };
        let (place, name) = copied;
        let at = Origin::at(number, place);
        match self.number_of(name.as_slice(), category) {
            Some(next) => Ok(Some((at, next))),
            None if is_posix_locale(name.as_slice()) => Ok(None),
            None => Err(SourceFault::At(at, Reason::CopyMissing)),
        }
    }

    /// The numbers of the files that give a category: the first file, and those that are copied, one from another.
    fn numbers(&self, category: Category) -> Result<Vec<usize>, SourceFault> {
        let mut numbers = Vec::new(self.alloc);
        let mut number = 0;
        let mut at = Origin {
            file: 0,
            line: 1,
            column: 1,
        };
        for _file in self.named {
            numbers.push(number)?;
            match self.next_number(category, number)? {
                Some((copying, next)) => {
                    at = copying;
                    number = next;
                }
                None => return Ok(numbers),
            }
        }
        Err(SourceFault::At(at, Reason::CopyCycle))
    }

    /// Adds the lines of a file in a category.
    fn add_lines(
        &self,
        category: Category,
        number: usize,
        draft: &mut Draft,
        notes: &mut Notes,
    ) -> Result<(), SourceFault> {
        let Some(file) = self.read.get(number) else {
            return Ok(());
        };
        let reading = Reading {
            alloc: self.alloc,
            charset: self.charset,
            file: number,
        };
        for line in &file.lines {
            if line.category.bit() == category.bit() {
                add_line(&reading, line, draft, notes)?;
            }
        }
        Ok(())
    }

    /// The lines of a category, those that are copied first.
    pub fn draft(&self, category: Category, notes: &mut Notes) -> Result<Draft, SourceFault> {
        let numbers = self.numbers(category)?;
        let mut draft = Draft::new(self.alloc);
        for number in numbers.iter().rev() {
            self.add_lines(category, *number, &mut draft, notes)?;
        }
        Ok(draft)
    }
}
