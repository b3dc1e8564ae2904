//! Theorems about sessions: their result for an input is unique, and if a session is interrupted, a prefix of its replies was written.

ghost use Rattle.std.specs.Prelude.{ℕ, List};
ghost use Rattle.cool_session.specs.Conversations.{HasPartWhereCut};
ghost use Rattle.cool_session.specs.Exchanges.{HasExchange, HasFronts, HasOneExchange};
ghost use Rattle.cool_session.specs.Fresh.{HaveCounts};

use cool_faults::law_one_verdict_at_least;

/// An input has a session: its replies, its end, and what it leaves.
pub fn law_one_exchange_at_least()
    ensures { (input : List ℕ) → HasExchange input }
{
    law_one_verdict_at_least();
}

/// A check of files within the limits, over a base of files, types some number of features, and leaves some base.
pub fn law_one_count_at_least()
    ensures { HaveCounts }
{
    law_one_verdict_at_least();
}

/// An input has one session at most.
pub fn law_one_exchange()
    ensures { (input : List ℕ) → HasOneExchange input }
{}

/// The replies of a part of a session are a front of those of the whole.
pub fn law_part()
    ensures { (input : List ℕ) → HasFronts input }
{}

/// If a session is cut short, a prefix of the replies of a part of it was put.
pub fn law_cut_short()
    ensures { (input : List ℕ) → HasPartWhereCut input }
{}
