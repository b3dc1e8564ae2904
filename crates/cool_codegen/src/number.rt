//! Functions that convert numbers of words or bytes, which are below 2 ^ 31, to signed offsets.

ghost use Rattle.std.specs.Prelude.{◌≡◌, ◌<◌, ◌^◌, pos};
ghost use Rattle.cool_codegen.specs.Code.{minus};

/// A number as an offset.
pub(crate) fn signed(number: u32) -> i32
    requires { number < 2 ^ 31 }
    ensures { result ≡ pos number }
{
    number as i32
}

/// A number with the other sign as an offset.
pub(crate) fn negative(number: u32) -> i32
    requires { number < 2 ^ 31 }
    ensures { result ≡ minus number }
{
    -(number as i32)
}
