//! A value for each category.

ghost use Rattle.std.specs.Prelude.{◌≡◌};
ghost use Rattle.lc_base.specs.ByCategory.{in_category};

use crate::category::Category;

/// A value for each category, in the order of [`Category`].
pub struct ByCategory<T> {
    /// The value for `LC_CTYPE`.
    pub ctype: T,
    /// The value for `LC_NUMERIC`.
    pub numeric: T,
    /// The value for `LC_MONETARY`.
    pub monetary: T,
    /// The value for `LC_TIME`.
    pub time: T,
    /// The value for `LC_MESSAGES`.
    pub messages: T,
}

impl<T: Drop> Drop for ByCategory<T> {
    fn drop(self) {
        let ByCategory {
            ctype: _,
            numeric: _,
            monetary: _,
            time: _,
            messages: _,
        } = self;
    }
}

impl<T> ByCategory<T> {
    /// The value for a category.
    pub fn get(&self, category: Category) -> &T
        ensures { result.now ≡ in_category self.now category }
    {
        match category {
            Category::Ctype => &self.ctype,
            Category::Numeric => &self.numeric,
            Category::Monetary => &self.monetary,
            Category::Time => &self.time,
            Category::Messages => &self.messages,
        }
    }
}
