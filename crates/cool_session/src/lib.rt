//! A session holds source files by name while they are edited, and replies to commands that set, remove and check them.
//!
//! Input: files, set and taken away one after another, or a source of commands and a sink. Output: the names of the files, their numbers of bytes, and
//! their fault list, for which only the features without a stored result are typed; or the replies to the commands. `specs/Files.antt` defines which files
//! are held after an edit, and `Fresh.antt` which features are typed. `specs/Commands.antt` defines the commands of lines, `Replies.antt` the reply to a
//! check, `Exchanges.antt` the exchange of a session with its input, and `Conversations.antt` its result if a device fails or memory runs out.
#![tactic(auto)]

mod base;
mod command;
mod conversation;
mod difference;
mod edited;
mod ending;
mod error;
mod fault_list;
mod files;
mod ids;
mod input;
mod known;
mod laws;
mod one_feature;
mod renewal;
mod reply;
mod runs;
mod same_classes;
mod same_declarations;
mod same_tokens;
mod session;
mod typed;

pub use conversation::converse;
pub use ending::{Ending, Interruption};
pub use error::SetError;
pub use laws::{
    law_cut_short, law_one_count_at_least, law_one_exchange, law_one_exchange_at_least, law_part,
};
pub use reply::Reply;
pub use session::Session;
