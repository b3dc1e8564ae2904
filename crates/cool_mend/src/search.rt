//! The search for edits that may fix a compile-time error tries candidates on an excerpt of the program. No contract says which edits it finds:
//! `explaining.rt` tries them on all files.

ghost use Rattle.std.specs.Prelude.{◌≡◌, ◌≤◌, length, true};
ghost use Rattle.cool_syntax.specs.declared.TheConstants.{MOST_SOURCE_BYTES};

use crate::edit::Edit;
use crate::mended::reached;
use crate::trial::{one_file_faults, text_fault};
use cool_check::TypeFault;
use cool_faults::Fault;
use cool_guess::{
    Candidate, Excerpt, Hint, Lexeme, Program, Range, Reason, Source, difference, index_at,
    is_advised, meaning_candidates, spliced, text_candidates,
};
use cool_lexer::LexKind;
use cool_syntax::MOST_SOURCE_BYTES;
use std::alloc::{AllocError, Global};

/// The phase of the first faults of files that have trees.
const FIRST_OF_TREES: u32 = 2;

/// The most edits of a text, one after the other, that are tried for a fault.
const MOST_STEPS: usize = 6;

/// The number of bytes left below which no more edits are looked for.
const FEWEST_BYTES: usize = 4096;

/// The most excerpts that are tried in a round.
const MOST_TRIALS: usize = 1000;

/// The most excerpts that are tried in a round if the files have many faults.
const FEWEST_TRIALS: usize = 60;

/// The excerpts that are shared out among the faults.
const TRIALS_FOR_ALL: usize = 6000;

/// The most edits that are found for a fault.
const MOST_FOUND: usize = 8;

/// The number of lexemes behind a feature that a parser must have passed if a brace was not just put in front of them.
const FEWEST_BEHIND: usize = 4;

/// The number of excerpts that are tried once an edit is found on which other features may depend.
const MOST_MORE: usize = 40;

/// An edit that may mend a fault, and the reason for it.
#[derive(Drop)]
pub(crate) struct Found {
    pub(crate) edit: Edit,
    pub(crate) reason: Reason,
    /// Whether the edit changes another feature than that of the fault.
    pub(crate) elsewhere: bool,
    /// Whether the edit is the first of several that were found one after the other.
    pub(crate) is_step: bool,
    /// Whether the fault may have hidden others: it is not one of typing, or the edit changes the body of a feature.
    pub(crate) may_show_more: bool,
}

/// The files, and the number of trials that are left.
#[derive(Drop)]
pub(crate) struct Search<'a> {
    alloc: Global,
    sources: &'a [Source<'a>],
    faults: &'a [Fault],
    /// The number of bytes that may still be tried for all faults.
    left: usize,
    /// The number of excerpts that may still be tried in this round.
    trials: usize,
}

/// A text in the place of a file, and the reason for it.
#[derive(Drop)]
struct Changed {
    text: Vec<u8>,
    reason: Reason,
}

/// An excerpt, and the faults that it has.
#[derive(Drop)]
struct Shown {
    excerpt: Excerpt,
    faults: Vec<Fault>,
}

/// The result of a round of trials.
#[derive(Drop)]
enum Round {
    /// Texts without the fault, the best first.
    Ready(Vec<Changed>),
    /// A text that has this fault further on.
    Further(Changed, Fault),
    /// No such text.
    Nothing,
}

/// A fault of a text in the place of a file.
#[derive(Clone, Copy)]
struct Spot<'s> {
    fault: Fault,
    /// The number of the file.
    file: u32,
    /// The text.
    here: &'s Source<'s>,
    /// The position of the lexeme at the fault.
    index: usize,
}

impl<'s> Spot<'s> {
    /// The spot of this fault of a text in the place of the file of a number.
    fn new(fault: Fault, file: u32, here: &'s Source<'s>) -> Spot<'s> {
        Spot {
            fault,
            file,
            here,
            index: index_at(&here.lexemes, fault.place().byte as usize),
        }
    }

    /// The byte at which the fault is.
    fn at(&self) -> usize {
        self.fault.place().byte as usize
    }

    /// Whether the fault is one of lexemes or syntax.
    fn is_text(&self) -> bool {
        matches!(self.fault, Fault::Lex(_) | Fault::Syntax(_))
    }

    /// Whether a byte stands in another feature than the fault, which is not one of lexemes or syntax.
    fn is_elsewhere(&self, byte: usize) -> bool {
        !self.is_text() && self.here.are_in_different_features(byte, self.at())
    }

    /// Whether no edit is told that leaves another fault.
    fn is_closed(&self) -> bool {
        self.is_text() && is_advised(self.here.bytes, &self.here.lexemes, self.index)
    }
}

/// The best of the texts that were tried.
#[derive(Drop)]
struct Best {
    /// The phase of the excerpt's faults without a candidate, and their number.
    phase: u32,
    many: usize,
    /// The texts that have no fault in the excerpt.
    ready: Vec<Changed>,
    /// The text that comes furthest of those that have a tree, and its rank.
    tree: Option<Changed>,
    rank: u32,
    /// The text whose fault is furthest on, that fault, and the number of bytes behind it in the excerpt.
    further: Option<Changed>,
    next: Option<Fault>,
    rest: usize,
    /// The number of bytes of the excerpt behind the feature in which a fault of syntax stands, and the begin of the next one.
    behind: usize,
}

impl Best {
    /// No text yet, for an excerpt that shows a spot.
    fn new(alloc: Global, spot: Spot<'_>, shown: &Shown) -> Best {
        let Shown { excerpt, faults } = shown;
        Best {
            phase: reached(faults),
            many: faults.len(),
            ready: Vec::new(alloc),
            tree: None,
            rank: rank_of(faults),
            further: None,
            next: None,
            rest: rest_of(&excerpt.text, faults).saturating_sub(2),
            behind: bytes_behind(spot, excerpt),
        }
    }

    /// Whether there is a text without the fault: one without faults in the excerpt, or one whose next fault of syntax stands behind the feature.
    fn is_found(&self) -> bool {
        !self.ready.is_empty() || (self.further.is_some() && self.rest <= self.behind)
    }
}

impl<'a> Search<'a> {
    /// A search for faults of these files, which are all that they have, by excerpts of so many bytes in all.
    pub(crate) fn new(
        alloc: Global,
        sources: &'a [Source<'a>],
        faults: &'a [Fault],
        left: usize,
    ) -> Search<'a> {
        Search {
            alloc,
            sources,
            faults,
            left,
            trials: MOST_TRIALS,
        }
    }

    /// The number of bytes of excerpts that may still be tried.
    pub(crate) fn left(&self) -> usize {
        self.left
    }

    /// Edits that may mend the fault of this number, the likeliest first. Returns `Err` only if memory runs out.
    pub(crate) fn find(&mut self, number: usize) -> Result<Vec<Found>, AllocError> {
        let Some(told) = self.faults.get(number) else {
            return Ok(Vec::new(self.alloc));
        };
        let mut fault = *told;
        let file = fault.place().file;
        let Some(source) = self.sources.get(file as usize) else {
            return Ok(Vec::new(self.alloc));
        };
        let mut bytes = Vec::from_slice(self.alloc, source.bytes)?;
        let mut first: Option<Changed> = None;
        for step in 0..MOST_STEPS {
            if self.left < FEWEST_BYTES {
                break;
            }
            self.trials = trials_for_each(self.faults.len());
            let round = if step == 0 {
                self.round(Spot::new(fault, file, source))?
            } else {
                let here = Source::new(self.alloc, &bytes)?;
                self.round(Spot::new(fault, file, &here))?
            };
            match round {
                Round::Ready(all) => return self.found(Spot::new(*told, file, source), &all, first),
                Round::Further(changed, next) => {
                    fault = next;
                    bytes = Vec::from_slice(self.alloc, &changed.text)?;
                    first = Some(first.unwrap_or(changed));
                }
                Round::Nothing => break,
            }
        }
        Ok(Vec::new(self.alloc))
    }

    /// The edits that lead to these texts in the place of the file of a fault. If the first step to them is another text, the edit that leads to it is the
    /// first one, and its reason is that of the others.
    fn found(
        &self,
        spot: Spot<'_>,
        all: &[Changed],
        first: Option<Changed>,
    ) -> Result<Vec<Found>, AllocError> {
        let mut found = Vec::new(self.alloc);
        let mut reason = None;
        if let Some(step) = first {
            reason = Some(step.reason);
            found.push(self.found_by(spot, &step, step.reason, true)?)?;
        }
        for changed in all {
            let why = reason.unwrap_or(changed.reason);
            found.push(self.found_by(spot, changed, why, false)?)?;
        }
        Ok(found)
    }

    /// The edit that leads to a text in the place of the file of a fault, with this reason.
    fn found_by(
        &self,
        spot: Spot<'_>,
        changed: &Changed,
        reason: Reason,
        is_step: bool,
    ) -> Result<Found, AllocError> {
        let (start, end, text) = difference(self.alloc, spot.here.bytes, &changed.text)?;
        let edit = Edit {
            file: spot.file,
            start,
            end,
            text,
        };
        Ok(Found {
            edit,
            reason,
            elsewhere: spot.is_elsewhere(start) || spot.is_elsewhere(end),
            is_step,
            may_show_more: !matches!(spot.fault, Fault::Typing(_)) || spot.here.is_in_body(start),
        })
    }

    /// Tries the candidates for a fault.
    fn round(&mut self, spot: Spot<'_>) -> Result<Round, AllocError> {
        let all = if spot.is_text() {
            text_candidates(self.alloc, spot.here.bytes, &spot.here.lexemes, spot.index)?
        } else {
            let program = self.program(spot);
            meaning_candidates(self.alloc, program, &spot.fault, spot.index)?
        };
        let Some(shown) = self.shown(spot, &all)? else {
            return Ok(Round::Nothing);
        };
        let best = self.best(spot, &all, &shown)?;
        if spot.is_text() {
            return self.judged_text(spot, best);
        }
        judged_meaning(best)
    }

    /// The best of the candidates in an excerpt.
    fn best(
        &mut self,
        spot: Spot<'_>,
        all: &[Candidate],
        shown: &Shown,
    ) -> Result<Best, AllocError> {
        let excerpt = &shown.excerpt;
        let is_closed = spot.is_closed();
        let mut best = Best::new(self.alloc, spot, shown);
        let mut more = MOST_MORE;
        let mut place = None;
        for candidate in all {
            if best.is_found() {
                if more == 0 || is_elsewhere(candidate, place) {
                    return Ok(best);
                }
                more = more.saturating_sub(1);
            }
            let Some(text) = excerpt.with(self.alloc, candidate)? else {
                continue;
            };
            if !self.may_try(&text) {
                return Ok(best);
            }
            let faults = one_file_faults(self.alloc, &text)?;
            if faults.is_empty() {
                best.ready.push(self.changed(spot, candidate)?)?;
                if best.ready.len() >= MOST_FOUND {
                    return Ok(best);
                }
                if is_within(spot.here, candidate) {
                    place = range_of(candidate);
                    if place.is_none() {
                        return Ok(best);
                    }
                }
            } else if !is_closed && !must_mend_all(candidate) {
                let was_found = best.is_found();
                self.note(spot, excerpt, candidate, &text, &faults, &mut best)?;
                if best.is_found() && !was_found {
                    place = range_of(candidate);
                }
            }
        }
        Ok(best)
    }

    /// Takes note of a candidate with which the excerpt is this text with these faults, if it is better than the best one.
    fn note(
        &self,
        spot: Spot<'_>,
        excerpt: &Excerpt,
        candidate: &Candidate,
        text: &[u8],
        faults: &[Fault],
        best: &mut Best,
    ) -> Result<(), AllocError> {
        let rank = rank_of(faults);
        let is_further = if spot.is_text() {
            reached(faults) < FIRST_OF_TREES
        } else {
            reached(faults) == best.phase
        };
        if rank > best.rank && (!spot.is_text() || !is_further) {
            best.rank = rank;
            best.tree = Some(self.changed(spot, candidate)?);
        }
        let rest = rest_of(text, faults);
        if is_further && faults.len() == best.many && rest < best.rest {
            best.rest = rest;
            best.further = Some(self.changed(spot, candidate)?);
            best.next = next_of(excerpt, faults, candidate);
        }
        Ok(())
    }

    /// The result of a round for a fault of lexemes or syntax: the best text, if its first such fault, if any, is further on.
    fn judged_text(&mut self, spot: Spot<'_>, best: Best) -> Result<Round, AllocError> {
        let Best {
            mut ready,
            tree,
            further,
            ..
        } = best;
        if !ready.is_empty() {
            return Ok(Round::Ready(ready));
        }
        if let Some(changed) = tree.or(further) {
            ready.push(changed)?;
        }
        let Some(first) = ready.first() else {
            return Ok(Round::Nothing);
        };
        self.trials = self.trials.max(1);
        if !self.may_try(&first.text) {
            return Ok(Round::Nothing);
        }
        let Some(fault) = text_fault(self.alloc, spot.file, &first.text)? else {
            return Ok(Round::Ready(ready));
        };
        let rest = first.text.len().saturating_sub(fault.place().byte as usize);
        if rest.saturating_add(2) >= spot.here.bytes.len().saturating_sub(spot.at()) {
            return Ok(Round::Nothing);
        }
        let changed = Changed {
            text: Vec::from_slice(self.alloc, &first.text)?,
            reason: first.reason,
        };
        Ok(Round::Further(changed, fault))
    }

    /// The files with a spot's text in the place of one of them.
    fn program<'s>(&self, spot: Spot<'s>) -> Program<'s>
    where
        'a: 's,
    {
        Program {
            sources: self.sources,
            number: spot.file as usize,
            here: spot.here,
        }
    }

    /// The excerpt for a fault, or all of the files if the excerpt has another fault; none if no more may be tried.
    fn shown(&mut self, spot: Spot<'_>, all: &[Candidate]) -> Result<Option<Shown>, AllocError> {
        if let Some(range) = shown_range(spot) {
            let is_all = matches!(spot.fault, Fault::Class(_));
            let excerpt = Excerpt::around(self.alloc, self.program(spot), range, all, is_all)?;
            if let Some(shown) = self.checked(excerpt)? {
                if is_same(&shown.excerpt, &shown.faults, spot) {
                    return Ok(Some(shown));
                }
            }
        }
        let whole = Excerpt::whole(self.alloc, self.program(spot))?;
        self.checked(whole)
    }

    /// An excerpt with its faults; none if it may not be tried.
    fn checked(&mut self, excerpt: Excerpt) -> Result<Option<Shown>, AllocError> {
        if !self.may_try(&excerpt.text) {
            return Ok(None);
        }
        let faults = one_file_faults(self.alloc, &excerpt.text)?;
        Ok(Some(Shown { excerpt, faults }))
    }

    /// The text of a spot with a candidate.
    fn changed(&self, spot: Spot<'_>, candidate: &Candidate) -> Result<Changed, AllocError> {
        Ok(Changed {
            text: spliced(self.alloc, spot.here.bytes, candidate.splices.as_slice())?,
            reason: candidate.reason,
        })
    }

    /// Whether these bytes may be tried; if so, they are counted.
    fn may_try(&mut self, bytes: &[u8]) -> bool
        ensures { result ≡ true → length bytes.now ≤ MOST_SOURCE_BYTES }
    {
        if self.trials == 0 || bytes.len() > self.left || bytes.len() as u64 > MOST_SOURCE_BYTES {
            return false;
        }
        self.trials = self.trials.saturating_sub(1);
        self.left = self.left.saturating_sub(bytes.len());
        true
    }
}

/// The result of a round for a fault of classes, features or typing.
fn judged_meaning(best: Best) -> Result<Round, AllocError> {
    let Best {
        mut ready,
        tree,
        further,
        next,
        ..
    } = best;
    if ready.is_empty() {
        if let Some(changed) = tree {
            ready.push(changed)?;
        }
    }
    if !ready.is_empty() {
        return Ok(Round::Ready(ready));
    }
    match (further, next) {
        (Some(changed), Some(fault)) => Ok(Round::Further(changed, fault)),
        _ => Ok(Round::Nothing),
    }
}

/// The range that an excerpt shows as it is; none for a comment that is not closed, whose end may be missing anywhere behind it.
fn shown_range(spot: Spot<'_>) -> Option<Range> {
    match spot.fault {
        Fault::Lex(fault) if fault.kind == LexKind::L5 => None,
        Fault::Lex(_) | Fault::Syntax(_) => Some(spot.here.stretch_around(spot.at())),
        Fault::Class(_) => Some(spot.here.class_around(spot.at())),
        _ => Some(spot.here.feature_around(spot.at())),
    }
}

/// The number of bytes of an excerpt behind the feature in which a spot's fault of lexemes or syntax stands and some lexemes of the next one; 0 for other
/// faults, and where the excerpt does not show these.
fn bytes_behind(spot: Spot<'_>, excerpt: &Excerpt) -> usize {
    let end = spot.here.feature_around(spot.at()).end;
    let next = index_at(&spot.here.lexemes, end).saturating_add(FEWEST_BEHIND);
    match spot.here.lexemes.get(next) {
        Some(lexeme) if spot.is_text() && spot.at() < end => {
            match excerpt.place(lexeme.start, lexeme.start) {
                Some(place) => excerpt.text.len().saturating_sub(place),
                None => 0,
            }
        }
        _ => 0,
    }
}

/// Whether the first fault of an excerpt is that of a spot.
fn is_same(excerpt: &Excerpt, found: &[Fault], spot: Spot<'_>) -> bool {
    let Some(first) = found.first() else {
        return false;
    };
    let is_there = excerpt.place(spot.at(), spot.at()) == Some(first.place().byte as usize);
    match (first, spot.fault) {
        (Fault::Lex(_), Fault::Lex(_)) | (Fault::Syntax(_), Fault::Syntax(_)) => is_there,
        (Fault::Class(a), Fault::Class(b)) => a.kind == b.kind,
        (Fault::Typing(a), Fault::Typing(b)) => a.kind == b.kind && is_there,
        _ => false,
    }
}

/// Whether all that a candidate changes lies in the body of a feature.
fn is_within(here: &Source<'_>, candidate: &Candidate) -> bool {
    for splice in candidate.splices.as_slice() {
        if !here.is_in_body(splice.start) {
            return false;
        }
    }
    true
}

/// Whether a candidate is told only if no fault is left in the excerpt: a guess, or an exchange of two tokens.
fn must_mend_all(candidate: &Candidate) -> bool {
    candidate.is_guess || matches!(candidate.reason, Reason::Hinted(Hint::Exchanged))
}

/// The range in which a candidate changes bytes, if there is one alone.
fn range_of(candidate: &Candidate) -> Option<Lexeme> {
    match candidate.splices.as_slice() {
        [splice] => Some(Lexeme {
            start: splice.start,
            end: splice.end,
        }),
        _ => None,
    }
}

/// Whether a candidate changes bytes of another range than this one, if there is one.
fn is_elsewhere(candidate: &Candidate, place: Option<Lexeme>) -> bool {
    match (place, range_of(candidate)) {
        (Some(place), Some(range)) => place.start != range.start || place.end != range.end,
        (Some(_), None) => true,
        (None, _) => false,
    }
}

/// The number of bytes of a text behind the first of its faults.
fn rest_of(text: &[u8], faults: &[Fault]) -> usize {
    match faults.first() {
        Some(fault) => text.len().saturating_sub(fault.place().byte as usize),
        None => 0,
    }
}

/// The first fault of an excerpt with a candidate, at its place in the file with the candidate. Its types are those of the excerpt, and left out.
fn next_of(excerpt: &Excerpt, faults: &[Fault], candidate: &Candidate) -> Option<Fault> {
    let Some(Fault::Typing(fault)) = faults.first() else {
        return None;
    };
    let mut more: usize = 0;
    let mut less: usize = 0;
    for splice in candidate.splices.as_slice() {
        more = more.saturating_add(splice.text.len());
        less = less.saturating_add(splice.end.saturating_sub(splice.start));
    }
    let before = (fault.at.byte as usize)
        .saturating_add(less)
        .checked_sub(more)?;
    let byte = excerpt
        .origin(before)?
        .saturating_add(more)
        .saturating_sub(less);
    let mut at = fault.at;
    at.byte = u32::try_from(byte).ok()?;
    Some(Fault::Typing(TypeFault {
        kind: fault.kind,
        rule: fault.rule,
        at,
        found: None,
        due: None,
    }))
}

/// The most excerpts that are tried in a round if the files have so many faults.
fn trials_for_each(many: usize) -> usize {
    (TRIALS_FOR_ALL / many.max(1))
        .max(FEWEST_TRIALS)
        .min(MOST_TRIALS)
}

/// A number that is greater the better the files with this fault list are: the later their first phase with faults, and then the fewer faults.
fn rank_of(faults: &[Fault]) -> u32 {
    let many = faults.len().min(999_999) as u32;
    reached(faults)
        .saturating_mul(1_000_000)
        .saturating_sub(many)
}
