//! Runs of tokens: sequences of limited length. A run ends after the brace that opens a class, and after each semicolon outside all inner braces and cases.

ghost use Rattle.std.specs.Prelude.{◌≡◌, ◌+◌, ◌<◌, ◌^◌};
ghost use Rattle.cool_syntax.specs.LexicalStructure.{depth_after, ends_run, run_after};
ghost use Rattle.cool_lexer.specs.Views.{run_seen};

use cool_syntax::{Key, Sign, TokenKind};

/// The depth of the tokens so far in braces and cases, and the number of those in the current run.
#[derive(Clone, Copy)]
pub(crate) struct Run {
    pub(crate) depth: u32,
    pub(crate) length: u32,
}

impl Run {
    /// The run after one more token.
    pub(crate) fn after(self, token: &TokenKind) -> Run
        requires deep { self.depth + 1 < 2 ^ 32 }
        requires long { self.length + 1 < 2 ^ 32 }
        ensures { run_seen result ≡ run_after (run_seen self) token.now }
    {
        let depth = depth_after(token, self.depth);
        if ends_run(token, self.depth) {
            Run { depth, length: 0 }
        } else {
            Run {
                depth,
                length: self.length + 1,
            }
        }
    }
}

/// The depth in braces and cases after one more token.
pub fn depth_after(token: &TokenKind, depth: u32) -> u32
    requires { depth + 1 < 2 ^ 32 }
    ensures { result ≡ depth_after token.now depth }
{
    match token {
        TokenKind::Sign(Sign::LBrace) | TokenKind::Key(Key::Case) => depth + 1,
        TokenKind::Sign(Sign::RBrace) | TokenKind::Key(Key::Esac) => depth.saturating_sub(1),
        _ => depth,
    }
}

/// Whether the next token is the first of a run, at the depth before this one: after a brace that opens a class, and after a semicolon of a
/// class's own level.
pub fn ends_run(token: &TokenKind, depth: u32) -> bool
    ensures { result ≡ ends_run token.now depth }
{
    match token {
        TokenKind::Sign(Sign::LBrace) => depth == 0,
        TokenKind::Sign(Sign::Semi) => depth == 1,
        _ => false,
    }
}
