//! The names of assembly directives, and the search for a directive by its name.

ghost use Rattle.std.specs.Prelude.{◌≡◌, bytes_eq};
ghost use Rattle.std.specs.List.{find};
ghost use Rattle.mips_text.specs.Names.{directive_named, directive_text};

/// A directive.
#[derive(Clone, Copy)]
pub(crate) enum Directive {
    Text,
    Data,
    Globl,
    Word,
    Byte,
    Ascii,
    Asciiz,
    Space,
    Align,
}

/// All directives.
static ALL: [Directive; 9] = [
    Directive::Text,
    Directive::Data,
    Directive::Globl,
    Directive::Word,
    Directive::Byte,
    Directive::Ascii,
    Directive::Asciiz,
    Directive::Space,
    Directive::Align,
];

impl Directive {
    /// The directive of this name.
    #[tactic(auto, unfolding(crate::specs::Names::directive_named))]
    pub(crate) fn named(name: &[u8]) -> Option<Directive>
        ensures { result ≡ directive_named name.now }
    {
        named_in(&ALL, name)
    }

    /// The name, with its dot.
    pub(crate) fn name(self) -> &'static str
        ensures { result.now ≡ directive_text self }
    {
        match self {
            Directive::Text => ".text",
            Directive::Data => ".data",
            Directive::Globl => ".globl",
            Directive::Word => ".word",
            Directive::Byte => ".byte",
            Directive::Ascii => ".ascii",
            Directive::Asciiz => ".asciiz",
            Directive::Space => ".space",
            Directive::Align => ".align",
        }
    }
}

/// The first of these directives that has this name.
fn named_in(all: &[Directive], name: &[u8]) -> Option<Directive>
    ensures { result ≡ find (λ directive. bytes_eq (directive_text directive) name.now) all.now }
{
    for directive in all {
        if directive.name().as_bytes() == name {
            return Some(*directive);
        }
    }
    None
}
