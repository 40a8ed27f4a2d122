ghost use Rattle.std.specs.Prelude.{◌≡◌, ◌++◌, OnOk};
ghost use Rattle.dsedge_export.specs.Words.{burst_line, device_words, made_line, made_lines, member, police_line};
ghost use Rattle.dsedge_export.specs.Words.{police_words, policers, rate_line, rte_meter_words, separate_rates_lines};
ghost use Rattle.dsedge_export.specs.Words.{separate_rates_words, single_rate_lines, single_rate_words, two_bursts};
ghost use Rattle.dsedge_export.specs.Words.{two_rate_lines, two_rate_words, two_rates};

use ds_domain::Profile;
use ds_domain_base::Parameters;
use ds_export::{Device, bytes_a_second};
use ds_quotes::Field;
use dsedge_texts::push_figure;
use moment_core::Rate;
use rfc4115_core::Rfc4115Parameters;
use srtcm_core::SrTcmParameters;
use std::alloc::AllocError;
use trtcm_core::TrTcmParameters;

/// Appends the words that set a device to parameters.
pub(crate) fn push_words(
    text: &mut Vec<u8>,
    device: Device,
    parameters: Parameters,
) -> Result<(), AllocError>
    ensures { OnOk result (text.new.items ≡ text.old.items ++ device_words device parameters) }
{
    match device {
        Device::Police => push_police_words(text, parameters),
        Device::RteMeter => push_rte_meter_words(text, parameters),
    }
}

/// Appends the lines for `tc -batch`, of a policer for each bucket.
fn push_police_words(text: &mut Vec<u8>, parameters: Parameters) -> Result<(), AllocError>
    ensures { OnOk result (text.new.items ≡ text.old.items ++ police_words parameters) }
{
    match parameters {
        Parameters::SrTcm(_) => Ok(()),
        Parameters::TrTcm(own) => push_policers(
            text,
            Profile {
                rate: own.committed_rate,
                burst: own.committed_burst,
            },
            Profile {
                rate: own.peak_rate,
                burst: own.peak_burst,
            },
        ),
        Parameters::Rfc4115(own) => push_policers(
            text,
            Profile {
                rate: own.committed_rate,
                burst: own.committed_burst,
            },
            Profile {
                rate: own.excess_rate,
                burst: own.excess_burst,
            },
        ),
    }
}

/// Appends the lines of the committed policer and of the other one.
#[tactic(auto, unfolding(crate::specs::Words::policers))]
fn push_policers(text: &mut Vec<u8>, committed: Profile, second: Profile) -> Result<(), AllocError>
    ensures { OnOk result (text.new.items
        ≡ text.old.items ++ policers committed.rate committed.burst second.rate second.burst) }
{
    push_police_line(text, committed, b"pipe/ok index 1\n")?;
    push_police_line(text, second, b"drop/pipe index 2\n")
}

/// Appends the line of a policer: what becomes of the packets that exceed it, and of the others, comes at its end.
#[tactic(auto, unfolding(crate::specs::Words::police_line))]
fn push_police_line(text: &mut Vec<u8>, own: Profile, behind: &[u8]) -> Result<(), AllocError>
    ensures { OnOk result (text.new.items ≡ text.old.items ++ police_line own.rate own.burst behind.now) }
{
    text.extend_from_slice(b"actions add action police rate")?;
    push_figure(text, 8 * bytes_a_second(own.rate))?;
    text.extend_from_slice(b"bit burst")?;
    push_figure(text, u64::from(own.burst))?;
    text.extend_from_slice(b" mtu 65535 conform-exceed ")?;
    text.extend_from_slice(behind)?;
    Ok(())
}

/// Appends the C line of the parameters of a meter of `rte_meter`.
fn push_rte_meter_words(text: &mut Vec<u8>, parameters: Parameters) -> Result<(), AllocError>
    ensures { OnOk result (text.new.items ≡ text.old.items ++ rte_meter_words parameters) }
{
    match parameters {
        Parameters::SrTcm(own) => push_single_rate_words(text, own),
        Parameters::TrTcm(own) => push_two_rate_words(text, own),
        Parameters::Rfc4115(own) => push_separate_rates_words(text, own),
    }
}

/// Appends a member of a C initialiser.
#[tactic(auto, unfolding(crate::specs::Words::member))]
fn push_member(text: &mut Vec<u8>, name: &[u8], number: u64) -> Result<(), AllocError>
    ensures { OnOk result (text.new.items ≡ text.old.items ++ member name.now number) }
{
    text.extend_from_slice(b" .")?;
    text.extend_from_slice(name)?;
    text.extend_from_slice(b" =")?;
    push_figure(text, number)
}

/// Appends the C line of a single-rate meter.
#[tactic(auto, unfolding(crate::specs::Words::single_rate_words))]
fn push_single_rate_words(text: &mut Vec<u8>, own: SrTcmParameters) -> Result<(), AllocError>
    ensures { OnOk result (text.new.items ≡ text.old.items ++ single_rate_words own) }
{
    text.extend_from_slice(b"struct rte_meter_srtcm_params params = {")?;
    push_member(text, b"cir", bytes_a_second(own.committed_rate))?;
    text.extend_from_slice(b",")?;
    push_member(text, b"cbs", u64::from(own.committed_burst))?;
    text.extend_from_slice(b",")?;
    push_member(text, b"ebs", u64::from(own.excess_burst))?;
    text.extend_from_slice(b" };\n")?;
    Ok(())
}

/// Appends the C line of a two-rate meter.
#[tactic(auto, unfolding(crate::specs::Words::two_rate_words))]
fn push_two_rate_words(text: &mut Vec<u8>, own: TrTcmParameters) -> Result<(), AllocError>
    ensures { OnOk result (text.new.items ≡ text.old.items ++ two_rate_words own) }
{
    text.extend_from_slice(b"struct rte_meter_trtcm_params params = {")?;
    push_two_rates(text, b"pir", own.committed_rate, own.peak_rate)?;
    push_two_bursts(text, b"pbs", own.committed_burst, own.peak_burst)?;
    Ok(())
}

/// Appends the C line of a meter of two separate rates.
#[tactic(auto, unfolding(crate::specs::Words::separate_rates_words))]
fn push_separate_rates_words(text: &mut Vec<u8>, own: Rfc4115Parameters) -> Result<(), AllocError>
    ensures { OnOk result (text.new.items ≡ text.old.items ++ separate_rates_words own) }
{
    text.extend_from_slice(b"struct rte_meter_trtcm_rfc4115_params params = {")?;
    push_two_rates(text, b"eir", own.committed_rate, own.excess_rate)?;
    push_two_bursts(text, b"ebs", own.committed_burst, own.excess_burst)?;
    Ok(())
}

/// Appends the members of the committed rate and of the other one, by its name.
#[tactic(auto, unfolding(crate::specs::Words::two_rates))]
fn push_two_rates(
    text: &mut Vec<u8>,
    name: &[u8],
    committed: Rate,
    second: Rate,
) -> Result<(), AllocError>
    ensures { OnOk result (text.new.items ≡ text.old.items ++ two_rates name.now committed second) }
{
    push_member(text, b"cir", bytes_a_second(committed))?;
    text.extend_from_slice(b",")?;
    push_member(text, name, bytes_a_second(second))?;
    text.extend_from_slice(b",")
}

/// Appends the members of the committed burst and of the other one, by its name, and the end of the line.
#[tactic(auto, unfolding(crate::specs::Words::two_bursts))]
fn push_two_bursts(
    text: &mut Vec<u8>,
    name: &[u8],
    committed: u32,
    second: u32,
) -> Result<(), AllocError>
    ensures { OnOk result (text.new.items ≡ text.old.items ++ two_bursts name.now committed second) }
{
    push_member(text, b"cbs", u64::from(committed))?;
    text.extend_from_slice(b",")?;
    push_member(text, name, u64::from(second))?;
    text.extend_from_slice(b" };\n")
}

/// Appends the lines of what is made of parameters.
pub(crate) fn push_made(
    text: &mut Vec<u8>,
    wanted: Parameters,
    made: Parameters,
) -> Result<(), AllocError>
    ensures { OnOk result (text.new.items ≡ text.old.items ++ made_lines wanted made) }
{
    match (wanted, made) {
        (Parameters::SrTcm(own), Parameters::SrTcm(made)) => push_single_rate_lines(
            text, own, made,
        ),
        (Parameters::TrTcm(own), Parameters::TrTcm(made)) => push_two_rate_lines(text, own, made),
        (Parameters::Rfc4115(own), Parameters::Rfc4115(made)) => {
            push_separate_rates_lines(text, own, made)
        }
        _ => Ok(()),
    }
}

/// Appends the lines of what is made of a single-rate meter.
#[tactic(auto, unfolding(crate::specs::Words::single_rate_lines))]
fn push_single_rate_lines(
    text: &mut Vec<u8>,
    own: SrTcmParameters,
    made: SrTcmParameters,
) -> Result<(), AllocError>
    ensures { OnOk result (text.new.items ≡ text.old.items ++ single_rate_lines own made) }
{
    push_rate(
        text,
        Field::CommittedRate,
        own.committed_rate,
        made.committed_rate,
    )?;
    push_burst(
        text,
        Field::CommittedBurst,
        own.committed_burst,
        made.committed_burst,
    )?;
    push_burst(
        text,
        Field::ExcessBurst,
        own.excess_burst,
        made.excess_burst,
    )
}

/// Appends the lines of what is made of a two-rate meter.
#[tactic(auto, unfolding(crate::specs::Words::two_rate_lines))]
fn push_two_rate_lines(
    text: &mut Vec<u8>,
    own: TrTcmParameters,
    made: TrTcmParameters,
) -> Result<(), AllocError>
    ensures { OnOk result (text.new.items ≡ text.old.items ++ two_rate_lines own made) }
{
    push_rate(
        text,
        Field::CommittedRate,
        own.committed_rate,
        made.committed_rate,
    )?;
    push_rate(text, Field::PeakRate, own.peak_rate, made.peak_rate)?;
    push_burst(
        text,
        Field::CommittedBurst,
        own.committed_burst,
        made.committed_burst,
    )?;
    push_burst(text, Field::PeakBurst, own.peak_burst, made.peak_burst)
}

/// Appends the lines of what is made of a meter of two separate rates.
#[tactic(auto, unfolding(crate::specs::Words::separate_rates_lines))]
fn push_separate_rates_lines(
    text: &mut Vec<u8>,
    own: Rfc4115Parameters,
    made: Rfc4115Parameters,
) -> Result<(), AllocError>
    ensures { OnOk result (text.new.items ≡ text.old.items ++ separate_rates_lines own made) }
{
    push_rate(
        text,
        Field::CommittedRate,
        own.committed_rate,
        made.committed_rate,
    )?;
    push_rate(text, Field::ExcessRate, own.excess_rate, made.excess_rate)?;
    push_burst(
        text,
        Field::CommittedBurst,
        own.committed_burst,
        made.committed_burst,
    )?;
    push_burst(
        text,
        Field::ExcessBurst,
        own.excess_burst,
        made.excess_burst,
    )
}

/// Appends what is made of a rate: `rate FIELD WANTED MADE`.
fn push_rate(text: &mut Vec<u8>, field: Field, wanted: Rate, made: Rate) -> Result<(), AllocError>
    ensures { OnOk result (text.new.items ≡ text.old.items ++ rate_line field wanted made) }
{
    push_line(text, b"rate ", field, wanted.get(), made.get())
}

/// Appends what is made of a burst: `burst FIELD WANTED MADE`.
fn push_burst(text: &mut Vec<u8>, field: Field, wanted: u32, made: u32) -> Result<(), AllocError>
    ensures { OnOk result (text.new.items ≡ text.old.items ++ burst_line field wanted made) }
{
    push_line(text, b"burst ", field, u64::from(wanted), u64::from(made))
}

/// Appends a line of what is made, behind a word.
#[tactic(auto, unfolding(crate::specs::Words::made_line))]
fn push_line(
    text: &mut Vec<u8>,
    word: &[u8],
    field: Field,
    wanted: u64,
    made: u64,
) -> Result<(), AllocError>
    ensures { OnOk result (text.new.items ≡ text.old.items ++ made_line word.now field wanted made) }
{
    text.extend_from_slice(word)?;
    text.extend_from_slice(field.text())?;
    push_figure(text, wanted)?;
    push_figure(text, made)?;
    text.push(b'\n')?;
    Ok(())
}
