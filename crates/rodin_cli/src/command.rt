// The words of the command line.
ghost use Rattle.std.specs.Prelude.{◌≡◌, ◌<◌, ◌^◌, ◌↔◌, ℕ, IsTrue, MatchOption, slice_index};
ghost use Rattle.rodin_cli.specs.Check.{IsCheckWords};
ghost use Rattle.rodin_cli.specs.Private.{AreDemoWords, AreSessionWords};
ghost use Rattle.rodin_cli.specs.Words.{AreWordsOf, HaveNoForm, IsDemoWords, IsNumberWord, IsSessionWords};

/// What the words ask for.
#[derive(Debug, Clone, Copy)]
pub enum Command {
    Check,
    Session { workers: u32 },
    Demo { seed: u64, n: u64 },
}

/// The most digits of a number.
const MOST_DIGITS: usize = 20;
/// The most workers of a session.
const MOST_WORKERS: u64 = 8;
/// The most models of a demonstration.
const MOST_MODELS: u64 = 128;

/// The command of these words. None where they are none of the forms.
pub fn command_of(words: &[String]) -> Option<Command>
    ensures { MatchOption result (HaveNoForm words.now) (λ command. AreWordsOf words.now command) }
{
    if is_check(words) {
        return Some(Command::Check);
    }
    if let Some(workers) = session_words(words) {
        return Some(Command::Session { workers });
    }
    match demo_words(words) {
        Some((seed, n)) => Some(Command::Demo { seed, n }),
        None => None,
    }
}

// The one word `check`.
fn is_check(words: &[String]) -> bool
    ensures { IsTrue result ↔ IsCheckWords words.now }
{
    match words {
        [word] => word.as_str() == "check",
        _ => false,
    }
}

// The number of the words `session WORKERS`.
fn session_words(words: &[String]) -> Option<u32>
    ensures { MatchOption result
        ((n : ℕ) → IsSessionWords words.now n → ⊥)
        (λ n. IsSessionWords words.now n) }
{
    match words {
        [word, workers] => workers_of(word.as_str(), workers.as_str()),
        _ => None,
    }
}

// The number of these two words.
fn workers_of(word: &str, workers: &str) -> Option<u32>
    ensures { MatchOption result
        ((n : ℕ) → AreSessionWords word.now workers.now n → ⊥)
        (λ n. AreSessionWords word.now workers.now n) }
{
    if word != "session" {
        return None;
    }
    let n = number_of(workers)?;
    if n > MOST_WORKERS {
        return None;
    }
    Some(n as u32)
}

// The numbers of the words `demo SEED N`.
fn demo_words(words: &[String]) -> Option<(u64, u64)>
    ensures { MatchOption result
        ((seed n : ℕ) → IsDemoWords words.now seed n → ⊥)
        (λ numbers. IsDemoWords words.now numbers.0 numbers.1) }
{
    match words {
        [word, seed, n] => demo_numbers(word.as_str(), seed.as_str(), n.as_str()),
        _ => None,
    }
}

// The numbers of these three words.
fn demo_numbers(word: &str, seed: &str, n: &str) -> Option<(u64, u64)>
    ensures { MatchOption result
        ((s k : ℕ) → AreDemoWords word.now seed.now n.now s k → ⊥)
        (λ numbers. AreDemoWords word.now seed.now n.now numbers.0 numbers.1) }
{
    if word != "demo" {
        return None;
    }
    let seed = number_of(seed)?;
    let n = number_of(n)?;
    if n < 1 || n > MOST_MODELS {
        return None;
    }
    Some((seed, n))
}

// The number of 64 bits that the word is in digits.
fn number_of(word: &str) -> Option<u64>
    ensures { MatchOption result ((n : ℕ) → IsNumberWord word.now n → n < 2 ^ 64 → ⊥) (λ n. IsNumberWord word.now n) }
{
    if word.len() > MOST_DIGITS {
        return None;
    }
    if begins_with_plus(word.as_bytes()) {
        return None;
    }
    match word.parse::<u64>() {
        Ok(n) => Some(n),
        Err(_) => None,
    }
}

fn begins_with_plus(bytes: &[u8]) -> bool
    ensures { IsTrue result ↔ (slice_index bytes.now 0 ≡ 43) }
{
    match bytes {
        [first, ..] => *first == b'+',
        [] => false,
    }
}
