//! The formatters of locale objects for C programs: `include/locale_objects.h` has the calls.
#![tactic(auto)]

mod builder;
mod builder_or_null;
mod exports;
mod lent;
mod libraries;
mod library_box;
mod library_or_null;
mod parts;
mod peek;
