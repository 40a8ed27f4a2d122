ghost use Rattle.std.specs.Prelude.{◌≡◌, ◌≤◌, ◌^◌, IfSome, codes, option_map};
ghost use Rattle.clap.specs.Words.{first_of, found_of, rows_of};
ghost use Rattle.dsedge_base.specs.Options.{burst_given, burst_said, envelope_burst_said, asked_given, envelope_given};
ghost use Rattle.dsedge_base.specs.Options.{commands_asked, contracts_asked, drive_given, is_given, is_set, number_within};
ghost use Rattle.dsedge_base.specs.Options.{device_said, export_given};
ghost use Rattle.dsedge_base.specs.Options.{marking_given, meter_given, mode_said, moment_said, opened};
ghost use Rattle.dsedge_base.specs.Options.{origin_said, parameters_given, quote_given, rate_given, rate_said, red_said};
ghost use Rattle.dsedge_base.specs.Options.{place_given, separate_rates_given, single_rate_given, table_given, two_rate_given};
ghost use Rattle.dsedge_base.specs.Options.{workers_asked, workers_given, workers_said};
ghost use Rattle.dsedge_base.specs.Plans.{given_by};

use crate::work::GivenPort;
use clap::ArgMatches;
use device_core::Device;
use ds_broker::Limits;
use ds_quotes::{Asked, Field};
use dsedge_lines::GivenName;
use line_text::number;
use meter_book_base::{AnyMeter, Parameters};
use moment_core::{Mode, Moment, Rate};
use rfc4115_core::Rfc4115Parameters;
use srtcm_core::SrTcmParameters;
use trtcm_core::TrTcmParameters;

/// The greatest burst of an envelope, in bytes.
const MOST_ENVELOPE_BURST: u64 = 1_000_000_000_000_000;

/// The most workers that mark a capture.
const MOST_WORKERS: u64 = 64;

/// How many contracts a book holds where no option says it.
const CONTRACTS: u32 = 4096;

/// How many commands a book accepts where no option says it.
const COMMANDS: u32 = 65_536;

/// The meter that the options of `meter` ask for, if they ask for one.
#[tactic(auto, unfolding(crate::specs::Options::meter_given))]
pub(crate) fn meter_in(options: &ArgMatches<'_>) -> Option<AnyMeter>
    ensures { result ≡ meter_given (given_by (rows_of (found_of options.now))) }
{
    let kind = text_in(options, "kind")?;
    let mode = mode_said_by(text_in(options, "mode")?)?;
    let origin = origin_said_by(text_in(options, "origin"))?;
    meter_opened(parameters_in(kind, options)?, mode, origin)
}

/// The rate and the burst that the options of `envelope` ask for, if they ask for any.
#[tactic(auto, unfolding(crate::specs::Options::envelope_given))]
pub(crate) fn envelope_in(options: &ArgMatches<'_>) -> Option<(Rate, u64)>
    ensures { result ≡ envelope_given (given_by (rows_of (found_of options.now))) }
{
    let rate = rate_in(options, "rate")?;
    let burst = envelope_burst_said_by(text_in(options, "burst")?)?;
    Some((rate, burst))
}

/// The name of a file or of a port that a word of a command gives.
pub(crate) fn name_in<'a>(options: &ArgMatches<'a>, name: &str) -> Option<GivenName<'a>>
    ensures { result ≡ given_by (rows_of (found_of options.now)) name.now }
{
    Some(GivenName::new(text_in(options, name)?))
}

/// The files of a domain and of a certificate that the words of a command give.
#[tactic(auto, unfolding(crate::specs::Options::table_given))]
pub(crate) fn table_in<'a>(options: &ArgMatches<'a>) -> Option<(GivenName<'a>, GivenName<'a>)>
    ensures { result ≡ table_given (given_by (rows_of (found_of options.now))) }
{
    let domain = name_in(options, "domain")?;
    let certificate = name_in(options, "certificate")?;
    Some((domain, certificate))
}

/// The file of a domain, the name of a contract and what the options of `quote` ask for of it.
#[tactic(auto, unfolding(crate::specs::Options::quote_given))]
pub(crate) fn quote_in<'a>(
    options: &ArgMatches<'a>,
) -> Option<(GivenName<'a>, GivenName<'a>, Asked)>
    ensures { result ≡ quote_given (given_by (rows_of (found_of options.now))) }
{
    let domain = name_in(options, "domain")?;
    let contract = name_in(options, "contract")?;
    let asked = asked_in(options)?;
    Some((domain, contract, asked))
}

/// The file of a domain, the name of a meter and the device that the options of `export` ask for.
#[tactic(auto, unfolding(crate::specs::Options::export_given))]
pub(crate) fn export_in<'a>(
    options: &ArgMatches<'a>,
) -> Option<(GivenName<'a>, GivenName<'a>, Device)>
    ensures { result ≡ export_given (given_by (rows_of (found_of options.now))) }
{
    let domain = name_in(options, "domain")?;
    let meter = name_in(options, "meter")?;
    let device = device_said_by(text_in(options, "to")?)?;
    Some((domain, meter, device))
}

/// The device that a word names.
fn device_said_by(text: &str) -> Option<Device>
    ensures { result ≡ device_said text.now }
{
    match text {
        "tc" => Some(Device::Police),
        "dpdk" => Some(Device::RteMeter),
        _ => None,
    }
}

/// What the options of `quote` ask for: the field that one names, or how many fit, and not both.
fn asked_in(options: &ArgMatches<'_>) -> Option<Asked>
    ensures { result ≡ asked_given (given_by (rows_of (found_of options.now))) }
{
    match (text_in(options, "most"), is_set(options, "count")) {
        (Some(word), false) => {
            let field = Field::named(word.as_bytes())?;
            Some(Asked::Most(field))
        }
        (None, true) => Some(Asked::Count),
        (Some(_), true) | (None, false) => None,
    }
}

/// The port, how many workers, and whether red frames are kept, that the options of `mark` ask for: workers, none where
/// they leave that to the program.
#[tactic(auto, unfolding(crate::specs::Options::marking_given))]
pub(crate) fn marking_in<'a>(options: &ArgMatches<'a>) -> Option<(GivenName<'a>, Option<u32>, bool)>
    ensures { result ≡ marking_given (given_by (rows_of (found_of options.now))) }
{
    let port = name_in(options, "port")?;
    let workers = workers_in(options)?;
    let keeps_red = red_said_by(text_in(options, "red")?)?;
    Some((port, workers, keeps_red))
}

/// The file of a domain, how much its book takes, and the file that keeps it, if one does, that the options of `drive`
/// ask for.
#[tactic(auto, unfolding(crate::specs::Options::drive_given))]
pub(crate) fn drive_in<'a>(
    options: &ArgMatches<'a>,
) -> Option<(GivenName<'a>, Limits, Option<GivenName<'a>>)>
    ensures { result ≡ drive_given (given_by (rows_of (found_of options.now))) }
{
    let domain = name_in(options, "domain")?;
    let contracts = contracts_asked_by(text_in(options, "contracts"))?;
    let commands = commands_asked_by(text_in(options, "commands"))?;
    let limits = Limits::new(contracts, commands).unwrap();
    let book = name_in(options, "book");
    Some((domain, limits, book))
}

/// The port whose packets the words of `arrivals` ask for: none where they ask for all.
pub(crate) fn place_in<'a>(options: &ArgMatches<'a>) -> Option<Option<GivenPort<'a>>>
    ensures { result ≡ place_given (given_by (rows_of (found_of options.now))) }
{
    let domain = name_in(options, "domain");
    let port = name_in(options, "port");
    let contract = name_in(options, "contract");
    match (domain, port, contract) {
        (None, None, None) => Some(None),
        (Some(domain), Some(port), contract) => Some(Some(GivenPort {
            domain,
            port,
            contract,
        })),
        _ => None,
    }
}

/// Whether a flag is given.
pub(crate) fn is_set(options: &ArgMatches<'_>, name: &str) -> bool
    ensures { result ≡ is_set (given_by (rows_of (found_of options.now)) name.now) }
{
    match text_in(options, name) {
        Some(text) => text == "true",
        None => false,
    }
}

/// How many workers the options of `mark` ask for, if that is 1 to 64: none where they leave it to the program.
pub(crate) fn workers_in(options: &ArgMatches<'_>) -> Option<Option<u32>>
    ensures { result ≡ workers_given (given_by (rows_of (found_of options.now))) }
{
    workers_asked_by(text_in(options, "workers"))
}

/// The meter of parameters that are those of one.
#[tactic(auto, unfolding(crate::specs::Options::opened))]
fn meter_opened(parameters: Parameters, mode: Mode, origin: Moment) -> Option<AnyMeter>
    ensures { result ≡ opened parameters mode origin }
{
    AnyMeter::new(parameters, mode, origin).ok()
}

/// The parameters of a meter of the kind that is named.
fn parameters_in(kind: &str, options: &ArgMatches<'_>) -> Option<Parameters>
    ensures { result ≡ parameters_given kind.now (given_by (rows_of (found_of options.now))) }
{
    match kind {
        "srtcm" => Some(Parameters::SrTcm(single_rate_in(options)?)),
        "trtcm" => Some(Parameters::TrTcm(two_rate_in(options)?)),
        "rfc4115" => Some(Parameters::Rfc4115(separate_rates_in(options)?)),
        _ => None,
    }
}

/// The parameters of a single-rate meter (RFC 2697 section 2), with no option of another kind beside them.
#[tactic(auto, unfolding(crate::specs::Options::single_rate_given))]
fn single_rate_in(options: &ArgMatches<'_>) -> Option<SrTcmParameters>
    ensures { result ≡ single_rate_given (given_by (rows_of (found_of options.now))) }
{
    if is_given(options, "pir") || is_given(options, "pbs") || is_given(options, "eir") {
        return None;
    }
    Some(SrTcmParameters {
        committed_rate: rate_in(options, "cir")?,
        committed_burst: burst_in(options, "cbs")?,
        excess_burst: burst_in(options, "ebs")?,
    })
}

/// The parameters of a two-rate meter (RFC 2698 section 2), with no option of another kind beside them.
#[tactic(auto, unfolding(crate::specs::Options::two_rate_given))]
fn two_rate_in(options: &ArgMatches<'_>) -> Option<TrTcmParameters>
    ensures { result ≡ two_rate_given (given_by (rows_of (found_of options.now))) }
{
    if is_given(options, "eir") || is_given(options, "ebs") {
        return None;
    }
    Some(TrTcmParameters {
        committed_rate: rate_in(options, "cir")?,
        committed_burst: burst_in(options, "cbs")?,
        peak_rate: rate_in(options, "pir")?,
        peak_burst: burst_in(options, "pbs")?,
    })
}

/// The parameters of a meter of two separate rates (RFC 4115), with no option of another kind beside them.
#[tactic(auto, unfolding(crate::specs::Options::separate_rates_given))]
fn separate_rates_in(options: &ArgMatches<'_>) -> Option<Rfc4115Parameters>
    ensures { result ≡ separate_rates_given (given_by (rows_of (found_of options.now))) }
{
    if is_given(options, "pir") || is_given(options, "pbs") {
        return None;
    }
    Some(Rfc4115Parameters {
        committed_rate: rate_in(options, "cir")?,
        committed_burst: burst_in(options, "cbs")?,
        excess_rate: rate_in(options, "eir")?,
        excess_burst: burst_in(options, "ebs")?,
    })
}

/// The rate that an option gives, in bits per second.
fn rate_in(options: &ArgMatches<'_>, name: &str) -> Option<Rate>
    ensures { result ≡ rate_given (given_by (rows_of (found_of options.now))) name.now }
{
    rate_said_by(text_in(options, name)?)
}

/// The burst size that an option gives, in bytes.
fn burst_in(options: &ArgMatches<'_>, name: &str) -> Option<u32>
    ensures { result ≡ burst_given (given_by (rows_of (found_of options.now))) name.now }
{
    burst_said_by(text_in(options, name)?)
}

/// Whether an option is given.
fn is_given(options: &ArgMatches<'_>, name: &str) -> bool
    ensures { result ≡ is_given (given_by (rows_of (found_of options.now))) name.now }
{
    text_in(options, name).is_some()
}

/// The text that an option was given.
fn text_in<'a>(options: &ArgMatches<'a>, name: &str) -> Option<&'a str>
    ensures { option_map (λ text. text.now) result ≡ first_of name.now (rows_of (found_of options.now)) }
{
    options.get_str(name)
}

/// The mode that a text says.
fn mode_said_by(text: &str) -> Option<Mode>
    ensures { result ≡ mode_said text.now }
{
    match text {
        "blind" => Some(Mode::Blind),
        "aware" => Some(Mode::Aware),
        _ => None,
    }
}

/// How many workers are asked for, if that is 1 to 64: none where no text says it.
fn workers_asked_by(text: Option<&str>) -> Option<Option<u32>>
    ensures { result ≡ workers_asked (option_map (λ text. text.now) text.entry) }
{
    match text {
        Some(text) => Some(Some(workers_said_by(text)?)),
        None => Some(None),
    }
}

/// How many workers a text says: 1 to 64.
#[tactic(auto, unfolding(crate::specs::Options::number_within))]
fn workers_said_by(text: &str) -> Option<u32>
    ensures { result ≡ workers_said text.now }
{
    let workers = number(text.as_bytes(), u64::MAX)?;
    if 1 <= workers && workers <= MOST_WORKERS {
        Some(workers as u32)
    } else {
        None
    }
}

/// How many contracts a book holds, if that is 1 to 65,536: 4,096 where no text says it.
fn contracts_asked_by(text: Option<&str>) -> Option<u32>
    ensures value { result ≡ contracts_asked (option_map (λ text. text.now) text.entry) }
    ensures range { IfSome result (λ contracts. (1 ≤ contracts) × (contracts ≤ 65536)) }
{
    match text {
        Some(text) => count_said_by(text, Limits::MOST_CONTRACTS),
        None => Some(CONTRACTS),
    }
}

/// How many commands a book accepts, if that is 1 to 2^24: 65,536 where no text says it.
fn commands_asked_by(text: Option<&str>) -> Option<u32>
    ensures value { result ≡ commands_asked (option_map (λ text. text.now) text.entry) }
    ensures range { IfSome result (λ commands. (1 ≤ commands) × (commands ≤ 2 ^ 24)) }
{
    match text {
        Some(text) => count_said_by(text, Limits::MOST_COMMANDS),
        None => Some(COMMANDS),
    }
}

/// The number that a text says: 1 to `most`.
#[tactic(auto, unfolding(crate::specs::Options::number_within))]
fn count_said_by(text: &str, most: u32) -> Option<u32>
    ensures value { result ≡ number_within 1 most text.now }
    ensures range { IfSome result (λ count. (1 ≤ count) × (count ≤ most)) }
{
    let count = number(text.as_bytes(), u64::MAX)?;
    if 1 <= count && count <= u64::from(most) {
        Some(count as u32)
    } else {
        None
    }
}

/// Whether a text says that red frames are kept.
fn red_said_by(text: &str) -> Option<bool>
    ensures { result ≡ red_said text.now }
{
    match text {
        "keep" => Some(true),
        "drop" => Some(false),
        _ => None,
    }
}

/// The moment at which a meter begins, 0 where none is given.
fn origin_said_by(text: Option<&str>) -> Option<Moment>
    ensures { result ≡ origin_said (option_map (λ text. text.now) text.entry) }
{
    match text {
        Some(text) => moment_said_by(text),
        None => Moment::new(0).ok(),
    }
}

/// The moment that a text says, in nanoseconds.
#[tactic(auto, unfolding(crate::specs::Options::number_within))]
fn moment_said_by(text: &str) -> Option<Moment>
    ensures { result ≡ moment_said text.now }
{
    Moment::new(number(text.as_bytes(), u64::MAX)?).ok()
}

/// The rate that a text says, in bits per second.
#[tactic(auto, unfolding(crate::specs::Options::number_within))]
fn rate_said_by(text: &str) -> Option<Rate>
    ensures { result ≡ rate_said text.now }
{
    Rate::new(number(text.as_bytes(), u64::MAX)?).ok()
}

/// The burst size that a text says, in bytes.
#[tactic(auto, unfolding(crate::specs::Options::number_within))]
fn burst_said_by(text: &str) -> Option<u32>
    ensures { result ≡ burst_said text.now }
{
    u32::try_from(number(text.as_bytes(), u64::MAX)?).ok()
}

/// The burst of an envelope that a text says, in bytes.
#[tactic(auto, unfolding(crate::specs::Options::number_within))]
fn envelope_burst_said_by(text: &str) -> Option<u64>
    ensures { result ≡ envelope_burst_said text.now }
{
    let burst = number(text.as_bytes(), u64::MAX)?;
    if burst <= MOST_ENVELOPE_BURST {
        Some(burst)
    } else {
        None
    }
}
