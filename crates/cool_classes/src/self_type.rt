//! The name `SELF_TYPE`, and the test whether a name is `SELF_TYPE` (the Cool manual, section 4.1).

ghost use Rattle.std.specs.Prelude.{◌≡◌, bytes_eq};
ghost use Rattle.cool_classes.specs.Names.{self_type};

/// Whether a name is that word.
pub fn is_self_type(name: &[u8]) -> bool
    ensures { result ≡ bytes_eq name.now self_type }
{
    name == self_type()
}

/// The word for the type of the object itself.
pub(crate) fn self_type() -> &'static [u8]
    ensures { result.now ≡ self_type }
{
    b"SELF_TYPE"
}
