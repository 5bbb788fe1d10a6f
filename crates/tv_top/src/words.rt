//! What words mean that several commands have.
ghost use Rattle.std.specs.Prelude.{◌≡◌, ◌^◌, map, Some, None, string_bytes, MatchResult};
ghost use Rattle.tv_plan.specs.Plan.{named, refusal_of};
ghost use Rattle.tv_top.specs.Build.{net_word, size_amounts};
ghost use Rattle.tv_word.specs.Numeral.{numeral};

use tv_plan::{Place, Refusal, Steps, TapeWords, What, keep_apart};
use tv_stages::Net;
use tv_word::decimal_of;

/// The number that a word is.
pub(crate) fn number(word: &String) -> Option<u64>
    ensures { result ≡ numeral 10 (2 ^ 64) (string_bytes word.now) }
{
    decimal_of(word.as_bytes())
}

/// The network that the words after those of a command name, which may be none or `waksman`.
pub(crate) fn net_word(last: &[String]) -> Option<Net>
    ensures { result ≡ net_word (map string_bytes last.now) }
{
    match last {
        [] => Some(Net::Benes),
        [word] if word.as_str() == "waksman" => Some(Net::Waksman),
        _ => None,
    }
}

/// N and T, unless a name that is written is one of the others, or they aren't within their limits.
pub(crate) fn granted(
    reads: &[Place<'_>],
    writes: &[Place<'_>],
    n: u64,
    t: u64,
) -> Result<(TapeWords, Steps), Refusal>
    ensures { let due = refusal_of (map named reads.now) (map named writes.now)
        (size_amounts n t) in
        MatchResult result (λ sizes. (sizes.0 ≡ n) × (sizes.1 ≡ t) × (due ≡ None))
        (λ why. due ≡ Some why) }
{
    keep_apart(reads, writes)?;
    Ok((
        TapeWords::of(What::TapeWords, n)?,
        Steps::of(What::Steps, t)?,
    ))
}
