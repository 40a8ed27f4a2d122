ghost use Rattle.std.specs.Prelude.{◌≡◌, ◌≢◌, IfErr, IfOk, IfSome, IsSome, None, map};
ghost use Rattle.std.specs.Prelude.{option_and_then, if◌then◌else◌};
ghost use Rattle.clap.specs.Words.{found_of, kind_of, rows_of, subcommand_rows_of};
ghost use Rattle.dsedge_base.specs.Plans.{IsExplanationOf, IsOfForm, IsPlanOf, IsRefusalOf, IsShown, IsWish};
ghost use Rattle.dsedge_base.specs.Plans.{arrivals_given, asks_other_workers, audit_given, book_given, check_given, given_by, mark_given, meter_asked, plan_of};
ghost use Rattle.dsedge_base.specs.Plans.{certify_given, drive_asked, envelope_asked, headroom_given, quote_asked};

use crate::command_line::command_line;
use crate::explanation::Explanation;
use crate::fault::UsageFault;
use crate::options::{
    drive_in, envelope_in, export_in, is_set, marking_in, meter_in, name_in, place_in, quote_in,
    table_in, workers_in,
};
use crate::work::Plan;
use clap::error::ErrorKind;
use clap::{ArgMatches, Error};
use std::alloc::Global;
use std::convert::AsStr;

/// What the words of a command line ask for, the name of the program left out.
///
/// Refused: `Usage` for words that are not those of a command with options of its own, each given once and in its
/// range, and for parameters that a meter refuses; `NoMemory` where memory runs out.
pub fn plan<'a, S: AsStr>(alloc: Global, words: &'a [S]) -> Result<Plan<'a>, UsageFault>
    ensures ok { IfOk result (IsPlanOf (map S.text words.entry.now)) }
    ensures err { IfErr result (IsRefusalOf (map S.text words.entry.now)) }
{
    let command = command_line(alloc)?;
    match command.try_get_matches_from(words) {
        Ok(matches) => asked_by(&matches).ok_or(UsageFault::Usage),
        Err(error) => answer_to(alloc, &error),
    }
}

/// What there is to say of words that give no plan. None where they give one, or memory runs out.
pub fn explain<S: AsStr>(alloc: Global, words: &[S]) -> Option<Explanation>
    ensures { IfSome result (IsExplanationOf (map S.text words.entry.now)) }
{
    let Ok(command) = command_line(alloc) else {
        return None;
    };
    match command.try_get_matches_from(words) {
        Ok(matches) => value_explanation(&matches),
        Err(error) => form_explanation(alloc, &error),
    }
}

/// Why a command line that is well formed asks for nothing that there is. None where it asks for something.
fn value_explanation(matches: &ArgMatches<'_>) -> Option<Explanation>
    ensures none { result ≡ None → IsSome (option_and_then plan_of (subcommand_rows_of matches.now)) }
    ensures told { IfSome result (λ explanation. (option_and_then plan_of (subcommand_rows_of matches.now) ≡ None)
        × (explanation ≡ (if asks_other_workers (subcommand_rows_of matches.now)
        then Explanation.Workers else Explanation.Value))) }
{
    if asked_by(matches).is_some() {
        return None;
    }
    if asks_other_workers(matches) {
        Some(Explanation::Workers)
    } else {
        Some(Explanation::Value)
    }
}

/// Whether a command line that is well formed asks `mark` to mark by other workers than 1 to 64.
fn asks_other_workers(matches: &ArgMatches<'_>) -> bool
    ensures { result ≡ asks_other_workers (subcommand_rows_of matches.now) }
{
    match matches.subcommand() {
        Some((name, options)) => name == "mark" && workers_in(options).is_none(),
        None => false,
    }
}

/// What an error says, where it is one of malformed words.
fn form_explanation(alloc: Global, error: &Error) -> Option<Explanation>
    ensures form { IfSome result IsOfForm }
    ensures malformed { IsSome result → ¬ IsWish (kind_of error.now) × (kind_of error.now ≢ ErrorKind.OutOfMemory) }
{
    match error.kind() {
        ErrorKind::DisplayHelp | ErrorKind::DisplayVersion | ErrorKind::OutOfMemory => None,
        _ => match format!(in alloc; "{error}") {
            Ok(text) => Some(Explanation::Form(text)),
            Err(_) => None,
        },
    }
}

/// What a command line that is well formed asks for.
fn asked_by<'a>(matches: &ArgMatches<'a>) -> Option<Plan<'a>>
    ensures { result ≡ option_and_then plan_of (subcommand_rows_of matches.now) }
{
    let (name, options) = matches.subcommand()?;
    asked_of(name, options)
}

/// What a command asks for with its options.
fn asked_of<'a>(name: &str, options: &ArgMatches<'a>) -> Option<Plan<'a>>
    ensures { result ≡ plan_of (name.now, rows_of (found_of options.now)) }
{
    match name {
        "meter" => meter_asked(options),
        "envelope" => envelope_asked(options),
        "certify" => certify_asked(options),
        "headroom" => headroom_asked(options),
        "draw" => {
            let domain = name_in(options, "domain")?;
            Some(Plan::Draw { domain })
        }
        "quote" => quote_asked(options),
        "export" => {
            let (domain, meter, device) = export_in(options)?;
            Some(Plan::Export {
                domain,
                meter,
                device,
            })
        }
        "drive" => drive_asked(options),
        "book" => book_asked(options),
        "check" => check_asked(options),
        "audit" => audit_asked(options),
        "mark" => mark_asked(options),
        "arrivals" => arrivals_asked(options),
        _ => None,
    }
}

/// What `book` asks for with its words.
#[tactic(auto, unfolding(crate::specs::Plans::book_given))]
fn book_asked<'a>(options: &ArgMatches<'a>) -> Option<Plan<'a>>
    ensures { result ≡ book_given (given_by (rows_of (found_of options.now))) }
{
    let domain = name_in(options, "domain")?;
    let book = name_in(options, "file")?;
    let to_domain = is_set(options, "to-domain");
    Some(Plan::Book {
        domain,
        book,
        to_domain,
    })
}

/// What `meter` asks for with its options.
fn meter_asked<'a>(options: &ArgMatches<'a>) -> Option<Plan<'a>>
    ensures { result ≡ meter_asked (given_by (rows_of (found_of options.now))) }
{
    let meter = meter_in(options)?;
    let has_levels = is_set(options, "levels");
    let in_json = is_set(options, "json");
    Some(Plan::Meter {
        meter,
        has_levels,
        in_json,
    })
}

/// What `envelope` asks for with its options.
fn envelope_asked<'a>(options: &ArgMatches<'a>) -> Option<Plan<'a>>
    ensures { result ≡ envelope_asked (given_by (rows_of (found_of options.now))) }
{
    let (rate, burst) = envelope_in(options)?;
    let in_json = is_set(options, "json");
    Some(Plan::Envelope {
        rate,
        burst,
        in_json,
    })
}

/// What `certify` asks for with its words.
fn certify_asked<'a>(options: &ArgMatches<'a>) -> Option<Plan<'a>>
    ensures { result ≡ certify_given (given_by (rows_of (found_of options.now))) }
{
    let domain = name_in(options, "domain")?;
    let in_json = is_set(options, "json");
    Some(Plan::Certify { domain, in_json })
}

/// What `quote` asks for with its words.
fn quote_asked<'a>(options: &ArgMatches<'a>) -> Option<Plan<'a>>
    ensures { result ≡ quote_asked (given_by (rows_of (found_of options.now))) }
{
    let (domain, contract, asked) = quote_in(options)?;
    let in_json = is_set(options, "json");
    Some(Plan::Quote {
        domain,
        contract,
        asked,
        in_json,
    })
}

/// What `headroom` asks for with its words.
fn headroom_asked<'a>(options: &ArgMatches<'a>) -> Option<Plan<'a>>
    ensures { result ≡ headroom_given (given_by (rows_of (found_of options.now))) }
{
    let domain = name_in(options, "domain")?;
    let in_json = is_set(options, "json");
    Some(Plan::Headroom { domain, in_json })
}

/// What `check` asks for with its words.
fn check_asked<'a>(options: &ArgMatches<'a>) -> Option<Plan<'a>>
    ensures { result ≡ check_given (given_by (rows_of (found_of options.now))) }
{
    let (domain, certificate) = table_in(options)?;
    let in_json = is_set(options, "json");
    Some(Plan::Check {
        domain,
        certificate,
        in_json,
    })
}

/// What `audit` asks for with its words.
fn audit_asked<'a>(options: &ArgMatches<'a>) -> Option<Plan<'a>>
    ensures { result ≡ audit_given (given_by (rows_of (found_of options.now))) }
{
    let (domain, certificate) = table_in(options)?;
    let in_json = is_set(options, "json");
    Some(Plan::Audit {
        domain,
        certificate,
        in_json,
    })
}

/// What `drive` asks for with its words.
fn drive_asked<'a>(options: &ArgMatches<'a>) -> Option<Plan<'a>>
    ensures { result ≡ drive_asked (given_by (rows_of (found_of options.now))) }
{
    let (domain, limits, book) = drive_in(options)?;
    let in_json = is_set(options, "json");
    Some(Plan::Drive {
        domain,
        limits,
        book,
        in_json,
    })
}

/// What `arrivals` asks for with its words.
fn arrivals_asked<'a>(options: &ArgMatches<'a>) -> Option<Plan<'a>>
    ensures { result ≡ arrivals_given (given_by (rows_of (found_of options.now))) }
{
    let place = place_in(options)?;
    let has_colours = is_set(options, "colours");
    Some(Plan::Arrivals { place, has_colours })
}

/// What `mark` asks for with its options.
#[tactic(auto, unfolding(crate::specs::Plans::mark_given))]
fn mark_asked<'a>(options: &ArgMatches<'a>) -> Option<Plan<'a>>
    ensures { result ≡ mark_given (given_by (rows_of (found_of options.now))) }
{
    let (domain, certificate) = table_in(options)?;
    let (port, workers, keeps_red) = marking_in(options)?;
    let has_verdict = is_set(options, "verdict");
    let in_json = is_set(options, "json");
    Some(Plan::Mark {
        domain,
        certificate,
        port,
        workers,
        keeps_red,
        has_verdict,
        in_json,
    })
}

/// The help or the version, where that was asked for, or why words are refused.
fn answer_to<'a>(alloc: Global, error: &Error) -> Result<Plan<'a>, UsageFault>
    ensures wish { IfOk result (λ plan. IsWish (kind_of error.now) × IsShown plan) }
    ensures usage { IfErr result (λ fault. fault ≡ UsageFault.Usage
        → ¬ IsWish (kind_of error.now) × (kind_of error.now ≢ ErrorKind.OutOfMemory)) }
{
    match error.kind() {
        ErrorKind::DisplayHelp | ErrorKind::DisplayVersion => {
            Ok(Plan::Show(format!(in alloc; "{error}")?))
        }
        ErrorKind::OutOfMemory => Err(UsageFault::NoMemory),
        _ => Err(UsageFault::Usage),
    }
}
