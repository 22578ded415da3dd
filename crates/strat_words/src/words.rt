//! The words and lines of a text.

ghost use Rattle.std.specs.Prelude.{◌≡◌, ◌≤◌, ◌<◌, ◌+◌, ◌^◌, ℕ, List, length, take, drop, IfOk, IfErr, Ok, ◌≢◌};
ghost use Rattle.std.specs.List.{prefix_len};
ghost use Rattle.strat_words.specs.Spot.{Gives, first, next, ends, is, start, next_place, last_place, Spot, word_at, fits, word_len, goes_on, number_follows, no_more};
ghost use Rattle.strat_words.specs.View.{spot};
ghost use Rattle.strat_words.specs.declared.fault.FileFault.TheVariants.{Bad, Memory};

use crate::cursor::Cursor;
use crate::fault::FileFault;

/// A word, and the place behind it.
pub type Word<'a> = (&'a [u8], Cursor<'a>);

fn word_len(z: &[u8]) -> usize
    ensures value { result ≡ word_len z.now }
    ensures within { result ≤ length z.now }
{
    z.iter()
        .take_while(|b| !(**b == b' ' || **b == b'\n'))
        .count()
}

/// The start of a file: all its bytes to come, line 1, no word taken.
pub fn start(bytes: &[u8]) -> Cursor<'_>
    ensures { spot result ≡ start bytes.now }
{
    Cursor {
        rest: bytes,
        line: 1,
        word: 0,
    }
}

/// The fault of the word after those that were taken.
pub fn next_fault(at: Cursor<'_>) -> FileFault
    ensures { result ≡ Bad at.entry.line (at.entry.word + 1) }
{
    FileFault::Bad {
        line: at.line,
        word: at.word + 1,
    }
}

/// The fault of the word that was taken last.
pub fn last_fault(at: Cursor<'_>) -> FileFault
    ensures { result ≡ Bad at.entry.line at.entry.word }
{
    FileFault::Bad {
        line: at.line,
        word: at.word,
    }
}

/// The word that begins at `z`, a part of what is left.
#[tactic(auto, unfolding(crate::specs::Spot::word_at))]
fn word_at<'a>(at: Cursor<'a>, z: &'a [u8]) -> Result<Word<'a>, FileFault>
    requires { length z.now ≤ length at.rest.now }
    ensures gives { Gives (λ w. (w.0.now, spot w.1)) result (word_at (spot at.entry) z.now) }
    ensures shorter { IfOk result (λ w. length w.1.rest.now < length at.entry.rest.now) }
    ensures place { IfErr result (λ e. e ≢ Memory) }
{
    let len = word_len(z);
    if len == 0 {
        return Err(next_fault(at));
    }
    let (word, rest) = z.split_at(len);
    let behind = Cursor {
        rest,
        line: at.line,
        word: at.word + 1,
    };
    Ok((word, behind))
}

/// The first word of a line, up to a space, a line feed or the end, and the place behind it.
/// Where it is empty, the fault is the word after those that were taken (`next_fault`).
pub fn first(at: Cursor<'_>) -> Result<Word<'_>, FileFault>
    ensures gives { Gives (λ w. (w.0.now, spot w.1)) result (first (spot at.entry)) }
    ensures shorter { IfOk result (λ w. length w.1.rest.now < length at.entry.rest.now) }
    ensures place { IfErr result (λ e. e ≢ Memory) }
{
    word_at(at, at.rest)
}

/// A further word of a line, behind one space, and the place behind it. Where no space stands here or the word is
/// empty, the fault is the word after those that were taken (`next_fault`).
#[tactic(auto, unfolding(crate::specs::Spot::next))]
pub fn next(at: Cursor<'_>) -> Result<Word<'_>, FileFault>
    ensures gives { Gives (λ w. (w.0.now, spot w.1)) result (next (spot at.entry)) }
    ensures shorter { IfOk result (λ w. length w.1.rest.now < length at.entry.rest.now) }
    ensures place { IfErr result (λ e. e ≢ Memory) }
{
    match at.rest {
        [b' ', rest @ ..] => word_at(at, rest),
        _ => Err(next_fault(at)),
    }
}

/// The place behind a line feed: the next line, no word taken. Where none stands here, the fault is the word after
/// those that were taken (`next_fault`).
#[tactic(auto, unfolding(crate::specs::Spot::ends))]
pub fn ends(at: Cursor<'_>) -> Result<Cursor<'_>, FileFault>
    ensures gives { Gives spot result (ends (spot at.entry)) }
    ensures shorter { IfOk result (λ a. length a.rest.now < length at.entry.rest.now) }
    ensures place { IfErr result (λ e. e ≢ Memory) }
{
    match at.rest {
        [b'\n', rest @ ..] => Ok(Cursor {
            rest,
            line: at.line + 1,
            word: 0,
        }),
        _ => Err(next_fault(at)),
    }
}

/// Whether a space stands here, behind which a further word would begin.
pub fn goes_on(at: Cursor<'_>) -> bool
    ensures { result ≡ goes_on (spot at.entry) }
{
    match at.rest {
        [b' ', ..] => true,
        _ => false,
    }
}

/// Whether a space stands here and a digit or a minus behind it, as a number begins.
pub fn number_follows(at: Cursor<'_>) -> bool
    ensures { result ≡ number_follows (spot at.entry) }
{
    match at.rest {
        [b' ', b, ..] => *b == b'-' || b.is_ascii_digit(),
        _ => false,
    }
}

/// The same place, where no space stands here; else the fault is the word after those that were taken (`next_fault`).
pub fn no_more(at: Cursor<'_>) -> Result<Cursor<'_>, FileFault>
    ensures gives { Gives spot result (no_more (spot at.entry)) }
    ensures place { IfErr result (λ e. e ≢ Memory) }
{
    if goes_on(at) {
        return Err(next_fault(at));
    }
    Ok(at)
}

/// The place behind a word that is a given one; another word is the fault.
fn known<'a>(taken: Word<'a>, known: &[u8]) -> Result<Cursor<'a>, FileFault>
    ensures gives { Gives spot result (is known.now (Ok (taken.entry.0.now, spot taken.entry.1))) }
    ensures same { IfOk result (λ a. a ≡ taken.entry.1) }
    ensures place { IfErr result (λ e. e ≢ Memory) }
{
    let (word, at) = taken;
    if word == known {
        Ok(at)
    } else {
        Err(last_fault(at))
    }
}

/// The place behind the first word of a line, which is a given one. Another word is the fault itself; an empty one is
/// that of `first`.
pub fn first_is<'a>(at: Cursor<'a>, word: &[u8]) -> Result<Cursor<'a>, FileFault>
    ensures gives { Gives spot result (is word.now (first (spot at.entry))) }
    ensures shorter { IfOk result (λ a. length a.rest.now < length at.entry.rest.now) }
    ensures place { IfErr result (λ e. e ≢ Memory) }
{
    let taken = first(at)?;
    known(taken, word)
}

/// The place behind a further word of a line, which is a given one. Another word is the fault itself; a missing or
/// empty one is that of `next`.
pub fn next_is<'a>(at: Cursor<'a>, word: &[u8]) -> Result<Cursor<'a>, FileFault>
    ensures gives { Gives spot result (is word.now (next (spot at.entry))) }
    ensures shorter { IfOk result (λ a. length a.rest.now < length at.entry.rest.now) }
    ensures place { IfErr result (λ e. e ≢ Memory) }
{
    let taken = next(at)?;
    known(taken, word)
}
