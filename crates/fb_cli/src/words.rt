//! What the words of the program ask for. Reading them takes no memory.

ghost use Rattle.std.specs.Prelude.{◌≡◌, [], ◌∷◌, is_some, option_map, IfSome, IfNone};
ghost use Rattle.container_view.specs.Property.{property_of};
ghost use Rattle.file_names.specs.Reading as reading;
ghost use Rattle.fb_cli.specs.Requests as spec;
ghost use Rattle.fb_cli.specs.Requests.{options, positionals, request_of};
ghost use Rattle.fb_cli.specs.inner.Words.{request_in};

use container_view::read_property;
use fb_bytes::{Text, is_same};
use workload_text::is_container_name;

/// The most clients, transactions of each, and transactions of all, of a workload to be generated.
const MOST_CLIENTS: u64 = 64;

const MOST_EACH: u64 = 100_000;

const MOST_OF_ALL: u64 = 200_000;

/// What words ask for.
pub enum Asked<'a> {
    Replay {
        brief: bool,
    },
    Restore {
        container: &'a Text,
        version: u64,
    },
    Describe {
        container: &'a Text,
    },
    Expire {
        container: &'a Text,
        cutoff: u64,
        wanted: u64,
        force: bool,
    },
    List,
    /// A command in its form that isn't built yet.
    Later,
    /// No command in its form.
    Misused,
}

/// The first word is the command; its options stand anywhere behind it.
pub fn words_ask(words: &[Text]) -> Asked<'_>
    ensures { request_of words.now ≡ request_in result }
{
    match words {
        [command, words @ ..] => by_command(command.as_bytes(), words),
        [] => Asked::Misused,
    }
}

/// Whether the report is to be brief.
pub fn is_brief(asked: &Asked<'_>) -> bool
    ensures { result ≡ spec.is_brief (request_in asked.now) }
{
    match asked {
        Asked::Replay { brief } => *brief,
        _ => false,
    }
}

fn by_command<'a>(command: &[u8], words: &'a [Text]) -> Asked<'a>
    ensures { spec.by_command command.now (positionals words.now) (options words.now)
        ≡ request_in result }
{
    if is_same(command, b"replay") {
        return replay_of(words);
    }
    if is_same(command, b"run") {
        return run_of(words);
    }
    if is_same(command, b"describe") {
        return describe_of(words);
    }
    if is_same(command, b"restore") {
        return restore_of(words);
    }
    if is_same(command, b"expire") {
        return expire_of(words);
    }
    if is_same(command, b"list") {
        return list_of(words);
    }
    if is_same(command, b"generate") {
        return generate_of(words);
    }
    Asked::Misused
}

// replay [--brief]
fn replay_of<'a>(words: &[Text]) -> Asked<'a>
    ensures { spec.replay_of (positionals words.now) (options words.now) ≡ request_in result }
{
    let None = next_positional(words) else {
        return Asked::Misused;
    };
    match flag_in(b"--brief", words) {
        Some(brief) => Asked::Replay { brief },
        None => Asked::Misused,
    }
}

// run [--brief]
fn run_of<'a>(words: &[Text]) -> Asked<'a>
    ensures { spec.run_of (positionals words.now) (options words.now) ≡ request_in result }
{
    let None = next_positional(words) else {
        return Asked::Misused;
    };
    later_if(has_flag(b"--brief", words))
}

// describe CONTAINER
fn describe_of(words: &[Text]) -> Asked<'_>
    ensures { spec.describe_of (positionals words.now) (options words.now) ≡ request_in result }
{
    let Some((container, rest)) = next_positional(words) else {
        return Asked::Misused;
    };
    let None = next_positional(rest) else {
        return Asked::Misused;
    };
    let None = next_option(words) else {
        return Asked::Misused;
    };
    if !is_container_name(container.as_bytes()) {
        return Asked::Misused;
    }
    Asked::Describe { container }
}

// restore CONTAINER VERSION
fn restore_of(words: &[Text]) -> Asked<'_>
    ensures { spec.restore_of (positionals words.now) (options words.now) ≡ request_in result }
{
    let Some((container, rest)) = next_positional(words) else {
        return Asked::Misused;
    };
    let Some((version, rest)) = next_positional(rest) else {
        return Asked::Misused;
    };
    let None = next_positional(rest) else {
        return Asked::Misused;
    };
    let None = next_option(words) else {
        return Asked::Misused;
    };
    if !is_container_name(container.as_bytes()) {
        return Asked::Misused;
    }
    match read_property(version.as_bytes()) {
        Some(version) => Asked::Restore { container, version },
        None => Asked::Misused,
    }
}

// expire CONTAINER CUTOFF [--restorable-after=N] [--force]
fn expire_of(words: &[Text]) -> Asked<'_>
    ensures { spec.expire_of (positionals words.now) (options words.now) ≡ request_in result }
{
    let Some((container, rest)) = next_positional(words) else {
        return Asked::Misused;
    };
    let Some((cutoff, rest)) = next_positional(rest) else {
        return Asked::Misused;
    };
    let None = next_positional(rest) else {
        return Asked::Misused;
    };
    if !is_container_name(container.as_bytes()) {
        return Asked::Misused;
    }
    let Some(cutoff) = read_property(cutoff.as_bytes()) else {
        return Asked::Misused;
    };
    match expire_terms(words) {
        Some((wanted, force)) => Asked::Expire {
            container,
            cutoff,
            wanted: wanted.unwrap_or(cutoff),
            force,
        },
        None => Asked::Misused,
    }
}

// list
fn list_of<'a>(words: &[Text]) -> Asked<'a>
    ensures { spec.list_of (positionals words.now) (options words.now) ≡ request_in result }
{
    let None = next_positional(words) else {
        return Asked::Misused;
    };
    let None = next_option(words) else {
        return Asked::Misused;
    };
    Asked::List
}

// generate SEED CLIENTS TRANSACTIONS [--text]
fn generate_of<'a>(words: &[Text]) -> Asked<'a>
    ensures { spec.generate_of (positionals words.now) (options words.now) ≡ request_in result }
{
    let Some((seed, rest)) = next_positional(words) else {
        return Asked::Misused;
    };
    let Some((clients, rest)) = next_positional(rest) else {
        return Asked::Misused;
    };
    let Some((transactions, rest)) = next_positional(rest) else {
        return Asked::Misused;
    };
    let None = next_positional(rest) else {
        return Asked::Misused;
    };
    later_if(is_number(seed) && are_counts(clients, transactions) && has_flag(b"--text", words))
}

fn later_if<'a>(good: bool) -> Asked<'a>
    ensures { spec.later_if good ≡ request_in result }
{
    if good { Asked::Later } else { Asked::Misused }
}

// Whether the one flag that a command takes is given; none where others are, or it is given twice.
fn flag_in(flag: &[u8], words: &[Text]) -> Option<bool>
    ensures { result ≡ spec.flag_in flag.now (options words.now) }
{
    let Some((option, rest)) = next_option(words) else {
        return Some(false);
    };
    let None = next_option(rest) else {
        return None;
    };
    if is_same(option.as_bytes(), flag) {
        Some(true)
    } else {
        None
    }
}

// The options are the flag, or none.
fn has_flag(flag: &[u8], words: &[Text]) -> bool
    ensures { result ≡ is_some (spec.flag_in flag.now (options words.now)) }
{
    flag_in(flag, words).is_some()
}

// The wanted version, if an option says one, and whether the expire is forced; none where the
// options aren't those of `expire`, each once at most.
fn expire_terms(words: &[Text]) -> Option<(Option<u64>, bool)>
    ensures { result ≡ spec.expire_terms (options words.now) }
{
    let Some((one, rest)) = next_option(words) else {
        return Some((None, false));
    };
    let Some((other, rest)) = next_option(rest) else {
        return one_term(one);
    };
    match next_option(rest) {
        Some(_) => None,
        None => two_terms(one, other),
    }
}

// The terms by two options.
fn two_terms(one: &Text, other: &Text) -> Option<(Option<u64>, bool)>
    ensures { result ≡ spec.expire_terms (one.now ∷ other.now ∷ []) }
{
    if is_force(one) {
        terms_with(true, other)
    } else if is_force(other) {
        terms_with(true, one)
    } else {
        None
    }
}

// The terms by one option.
fn one_term(option: &Text) -> Option<(Option<u64>, bool)>
    ensures { result ≡ spec.expire_terms (option.now ∷ []) }
{
    if is_force(option) {
        Some((None, true))
    } else {
        terms_with(false, option)
    }
}

// The terms by the option that says the wanted version.
fn terms_with(force: bool, option: &Text) -> Option<(Option<u64>, bool)>
    ensures { result ≡ spec.terms_with force (spec.wanted_in option.now) }
{
    match wanted_in(option) {
        Some(wanted) => Some((Some(wanted), force)),
        None => None,
    }
}

fn is_force(option: &Text) -> bool
    ensures { result ≡ spec.is_force option.now }
{
    is_same(option.as_bytes(), b"--force")
}

fn wanted_in(option: &Text) -> Option<u64>
    ensures { result ≡ spec.wanted_in option.now }
{
    match after(b"--restorable-after=", option.as_bytes()) {
        Some(number) => read_property(number),
        None => None,
    }
}

#[tactic(auto, unfolding(file_names::specs::Reading::after, fb_bytes::specs::Bytes::is_same))]
fn after<'a>(text: &[u8], bytes: &'a [u8]) -> Option<&'a [u8]>
    ensures { option_map (λ rest. rest.now) result ≡ reading.after text.now bytes.now }
{
    bytes.strip_prefix(text)
}

fn is_number(word: &Text) -> bool
    ensures { result ≡ spec.is_number word.now }
{
    read_property(word.as_bytes()).is_some()
}

// So many clients with so many transactions each can be generated.
fn are_counts(clients: &Text, transactions: &Text) -> bool
    ensures { result ≡ spec.are_counts (property_of clients.now) (property_of transactions.now) }
{
    let Some(clients) = read_property(clients.as_bytes()) else {
        return false;
    };
    let Some(transactions) = read_property(transactions.as_bytes()) else {
        return false;
    };
    let Some(all) = clients.checked_mul(transactions) else {
        return false;
    };
    1 <= clients && clients <= MOST_CLIENTS && transactions <= MOST_EACH && all <= MOST_OF_ALL
}

// The first option, and the words behind it.
fn next_option(words: &[Text]) -> Option<(&Text, &[Text])>
    ensures some { IfSome result (λ x. options words.now ≡ x.0.now ∷ options x.1.now) }
    ensures none { IfNone result (options words.now ≡ []) }
{
    match words {
        [word, rest @ ..] => {
            if is_option(word) {
                Some((word, rest))
            } else {
                next_option(rest)
            }
        }
        [] => None,
    }
}

// The first word that is none, and the words behind it.
fn next_positional(words: &[Text]) -> Option<(&Text, &[Text])>
    ensures some { IfSome result (λ x. positionals words.now ≡ x.0.now ∷ positionals x.1.now) }
    ensures none { IfNone result (positionals words.now ≡ []) }
{
    match words {
        [word, rest @ ..] => {
            if is_option(word) {
                next_positional(rest)
            } else {
                Some((word, rest))
            }
        }
        [] => None,
    }
}

fn is_option(word: &Text) -> bool
    ensures { result ≡ spec.is_option word.now }
{
    match word.as_bytes().first() {
        Some(byte) => *byte == b'-',
        None => false,
    }
}
