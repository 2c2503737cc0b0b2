//! Names of the locale and the charsets that are built in.

ghost use Rattle.std.specs.Prelude.{◌≡◌};
ghost use Rattle.lc_base.specs.BuiltIn.{is_built_in_charset, is_posix_locale};

/// Whether a name is one of the POSIX locale: `C` or `POSIX` (POSIX.1-2017, XBD 7.2).
pub fn is_posix_locale(name: &[u8]) -> bool
    ensures { result ≡ is_posix_locale name.now }
{
    name == b"C".as_slice() || name == b"POSIX".as_slice()
}

/// Whether a name is that of a charset that no charmap describes: `UTF-8` or `POSIX`.
pub fn is_built_in_charset(name: &[u8]) -> bool
    ensures { result ≡ is_built_in_charset name.now }
{
    name == b"UTF-8".as_slice() || name == b"POSIX".as_slice()
}
