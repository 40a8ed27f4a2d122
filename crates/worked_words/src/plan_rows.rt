use device_core::Device;
use ds_quotes::{Asked, Field};
use dsedge_base::{Plan, UsageFault, plan};
use dsedge_lines::GivenName;
use meter_book_base::{AnyMeter, Parameters};
use moment_core::{Mode, Moment, Rate};
use rfc4115_core::Rfc4115Parameters;
use srtcm_core::SrTcmParameters;
use std::alloc::Global;
use std::process::Abort;
use std::test::Fail;
use trtcm_core::TrTcmParameters;

/// A plan as it is shown to people.
fn shown(alloc: Global, plan: &Plan<'_>) -> Result<String, Fail> {
    Ok(format!(in alloc; "{plan:?}")?)
}

/// The plan for a line of words that stand one space apart, as it is shown to people.
fn plan_for(alloc: Global, line: &str) -> Result<Result<String, UsageFault>, Fail> {
    let words = line.split(' ').collect::<Vec<&str>>(alloc)?;
    match plan(alloc, words.as_slice()) {
        Ok(plan) => Ok(Ok(shown(alloc, &plan)?)),
        Err(fault) => Ok(Err(fault)),
    }
}

/// Expects of a line of words how its plan is shown.
fn expect_shown(rt: &impl Abort, alloc: Global, line: &str, wanted: &str) -> Result<(), Fail> {
    let made = plan_for(alloc, line)??;
    assert_eq!(rt; made.as_str(), wanted, "{line}");
    Ok(())
}

/// Expects of a line of words that there is no plan.
fn expect_usage(rt: &impl Abort, alloc: Global, line: &str) -> Result<(), Fail> {
    let fault = plan_for(alloc, line)?.err();
    assert_eq!(rt; fault, Some(UsageFault::Usage), "{line}");
    Ok(())
}

/// Expects of each line of a text, behind some words, that there is no plan.
fn expect_no_plans(rt: &impl Abort, alloc: Global, front: &str, lines: &str) -> Result<(), Fail> {
    for line in lines.split('\n') {
        let words = format!(in alloc; "{front}{line}")?;
        expect_usage(rt, alloc, words.as_str())?;
    }
    Ok(())
}

/// Expects of a line of words the plan of a meter.
fn expect_meter(
    rt: &impl Abort,
    alloc: Global,
    line: &str,
    (parameters, mode, origin): (Parameters, Mode, u64),
) -> Result<(), Fail> {
    let meter = AnyMeter::new(parameters, mode, Moment::new(origin)?)?;
    let wanted = format!(in alloc;
        "Meter {{ meter: {meter:?}, has_levels: false, in_json: false }}"
    )?;
    expect_shown(rt, alloc, line, wanted.as_str())?;
    let wanted = format!(in alloc;
        "Meter {{ meter: {meter:?}, has_levels: true, in_json: true }}"
    )?;
    let line = format!(in alloc; "{line} --levels --json")?;
    expect_shown(rt, alloc, line.as_str(), wanted.as_str())
}

/// The parameters of a meter of two rates.
fn two_rates((cir, cbs, pir, pbs): (u64, u32, u64, u32)) -> Result<Parameters, Fail> {
    Ok(Parameters::TrTcm(TrTcmParameters {
        committed_rate: Rate::new(cir)?,
        committed_burst: cbs,
        peak_rate: Rate::new(pir)?,
        peak_burst: pbs,
    }))
}

#[test]
fn meters_of_two_rates(rt: HostRuntime) -> Result<(), Fail> {
    for (line, mode, figures, origin) in [
        (
            "meter --kind trtcm --mode blind --cir 8000 --cbs 1500 --pir 16000 --pbs 3000",
            Mode::Blind,
            (8_000, 1_500, 16_000, 3_000),
            0,
        ),
        (
            "meter --origin 7 --pbs 4 --pir 3 --cbs 2 --cir 1 --mode aware --kind trtcm",
            Mode::Aware,
            (1, 2, 3, 4),
            7,
        ),
        (
            "meter --kind=trtcm --mode=blind --cir=8000 --cbs=1500 --pir=8000 --pbs=1",
            Mode::Blind,
            (8_000, 1_500, 8_000, 1),
            0,
        ),
        (
            "meter --kind trtcm --mode aware --cir 00000000000000000001 --cbs 01 --pir 10000000000000 --pbs 4294967295 --origin 9223372036854775807",
            Mode::Aware,
            (1, 1, 10_000_000_000_000, 4_294_967_295),
            9_223_372_036_854_775_807,
        ),
    ] {
        let parameters = two_rates(figures)?;
        expect_meter(&rt, rt.alloc(), line, (parameters, mode, origin))?;
    }
    Ok(())
}

#[test]
fn a_meter_of_a_single_rate(rt: HostRuntime) -> Result<(), Fail> {
    let parameters = Parameters::SrTcm(SrTcmParameters {
        committed_rate: Rate::new(8_000)?,
        committed_burst: 1_000,
        excess_burst: 500,
    });
    let line = "meter --kind srtcm --mode aware --cir 8000 --cbs 1000 --ebs 500";
    expect_meter(&rt, rt.alloc(), line, (parameters, Mode::Aware, 0))
}

#[test]
fn a_meter_of_separate_rates(rt: HostRuntime) -> Result<(), Fail> {
    let parameters = Parameters::Rfc4115(Rfc4115Parameters {
        committed_rate: Rate::new(8_000)?,
        committed_burst: 0,
        excess_rate: Rate::new(9_000)?,
        excess_burst: 500,
    });
    let line =
        "meter --ebs=500 --origin=7 --eir=9000 --cbs=0 --cir=8000 --mode=blind --kind=rfc4115";
    expect_meter(&rt, rt.alloc(), line, (parameters, Mode::Blind, 7))
}

/// Expects of a line of words a plan.
fn expect_plan(rt: &impl Abort, alloc: Global, line: &str, plan: &Plan<'_>) -> Result<(), Fail> {
    let wanted = shown(alloc, plan)?;
    expect_shown(rt, alloc, line, wanted.as_str())
}

#[test]
fn envelopes(rt: HostRuntime) -> Result<(), Fail> {
    for (line, rate, burst, in_json) in [
        (
            "envelope --rate 800000000 --burst 21",
            800_000_000,
            21,
            false,
        ),
        ("envelope --burst=0 --rate=01", 1, 0, false),
        ("envelope --json --burst 0 --rate 1", 1, 0, true),
        (
            "envelope --rate 10000000000000 --burst 1000000000000000",
            10_000_000_000_000,
            1_000_000_000_000_000,
            false,
        ),
    ] {
        let rate = Rate::new(rate)?;
        let plan = Plan::Envelope {
            rate,
            burst,
            in_json,
        };
        expect_plan(&rt, rt.alloc(), line, &plan)?;
    }
    Ok(())
}

#[test]
fn certificates(rt: HostRuntime) -> Result<(), Fail> {
    for (line, name, in_json) in [
        ("certify domain.toml", "domain.toml", false),
        ("certify -- --kind", "--kind", false),
        ("certify domain.toml --json", "domain.toml", true),
    ] {
        let domain = GivenName::new(name);
        expect_plan(&rt, rt.alloc(), line, &Plan::Certify { domain, in_json })?;
    }
    Ok(())
}

#[test]
fn headrooms_pictures_and_quotes(rt: HostRuntime) -> Result<(), Fail> {
    for (line, in_json) in [
        ("headroom domain.toml", false),
        ("headroom --json domain.toml", true),
    ] {
        let domain = GivenName::new("domain.toml");
        let plan = Plan::Headroom { domain, in_json };
        expect_plan(&rt, rt.alloc(), line, &plan)?;
    }
    let domain = GivenName::new("domain.toml");
    expect_plan(&rt, rt.alloc(), "draw domain.toml", &Plan::Draw { domain })?;
    for (line, asked, in_json) in [
        (
            "quote domain.toml --contract b --most cbs",
            Asked::Most(Field::CommittedBurst),
            false,
        ),
        (
            "quote --json --most=eir --contract b domain.toml",
            Asked::Most(Field::ExcessRate),
            true,
        ),
        (
            "quote --count domain.toml --contract b",
            Asked::Count,
            false,
        ),
    ] {
        let plan = Plan::Quote {
            domain: GivenName::new("domain.toml"),
            contract: GivenName::new("b"),
            asked,
            in_json,
        };
        expect_plan(&rt, rt.alloc(), line, &plan)?;
    }
    Ok(())
}

#[test]
fn exports(rt: HostRuntime) -> Result<(), Fail> {
    for (line, device) in [
        ("export domain.toml --meter m --to tc", Device::Police),
        ("export --to=dpdk --meter m domain.toml", Device::RteMeter),
    ] {
        let plan = Plan::Export {
            domain: GivenName::new("domain.toml"),
            meter: GivenName::new("m"),
            device,
        };
        expect_plan(&rt, rt.alloc(), line, &plan)?;
    }
    Ok(())
}

/// The plan of a check of two files.
fn check_of_two(in_json: bool) -> Plan<'static> {
    Plan::Check {
        domain: GivenName::new("domain.toml"),
        certificate: GivenName::new("domain.cert"),
        in_json,
    }
}

/// The plan of an audit over the same files.
fn audit_of_two(in_json: bool) -> Plan<'static> {
    Plan::Audit {
        domain: GivenName::new("domain.toml"),
        certificate: GivenName::new("domain.cert"),
        in_json,
    }
}

/// The plan of a mark over the same files by so many workers, or by as many as the machine gains from.
fn mark_over_two(workers: Option<u32>, keeps_red: bool, has_verdict: bool) -> Plan<'static> {
    Plan::Mark {
        domain: GivenName::new("domain.toml"),
        certificate: GivenName::new("domain.cert"),
        port: GivenName::new("p"),
        workers,
        keeps_red,
        has_verdict,
        in_json: false,
    }
}

#[test]
fn a_mark_names_two_files_a_port_and_a_rule(rt: HostRuntime) -> Result<(), Fail> {
    let alloc = rt.alloc();
    for (line, workers, keeps_red, has_verdict) in [
        (
            "mark domain.toml domain.cert --port p --workers 1 --red keep",
            Some(1),
            true,
            false,
        ),
        (
            "mark domain.toml domain.cert --port p --workers 64 --red keep --verdict",
            Some(64),
            true,
            true,
        ),
        (
            "mark --verdict --red drop --workers 02 --port p domain.toml domain.cert",
            Some(2),
            false,
            true,
        ),
        (
            "mark domain.toml domain.cert --port p --red keep",
            None,
            true,
            false,
        ),
    ] {
        let wanted = mark_over_two(workers, keeps_red, has_verdict);
        expect_plan(&rt, alloc, line, &wanted)?;
    }
    Ok(())
}

#[test]
fn checks_and_audits_name_two_files(rt: HostRuntime) -> Result<(), Fail> {
    let alloc = rt.alloc();
    let check = "check domain.toml domain.cert";
    expect_plan(&rt, alloc, check, &check_of_two(false))?;
    let check = "check --json domain.toml domain.cert";
    expect_plan(&rt, alloc, check, &check_of_two(true))?;
    let audit = "audit domain.toml domain.cert";
    expect_plan(&rt, alloc, audit, &audit_of_two(false))?;
    let audit = "audit domain.toml --json domain.cert";
    expect_plan(&rt, alloc, audit, &audit_of_two(true))
}

#[test]
fn no_words_are_no_command(rt: HostRuntime) {
    let fault = plan::<&str>(rt.alloc(), &[]).err();
    assert_eq!(rt; fault, Some(UsageFault::Usage));
}

/// Lines of words that ask for nothing that there is.
const NO_COMMANDS: &str = "
 meter
metre
Meter
-
--
--Version
-v
--kind trtcm
help metre
meter --version
envelope
envelope --rate 1
envelope --burst 1
envelope --rate 1 --burst 1 --burst 1
envelope --rate 1 --burst 1 --origin 0
envelope --rate 1 --burst 1 more
envelope --rate 10000000000001 --burst 1
envelope --rate 1 --burst 1000000000000001
envelope --rate 1 --burst +1
envelope --rate 1 --burst -1
certify
certify one.toml two.toml
certify --domain one.toml
certify one.toml --json --json
certify one.toml --json=yes
draw one.toml --json
export one.toml --meter m --to tc --json
book one.toml one.book --json
arrivals --json
check domain.toml
check domain.toml domain.cert more
mark domain.toml domain.cert --port p --workers 65 --red keep
mark domain.toml domain.cert --port p --workers 0 --red keep
mark domain.toml domain.cert --workers 1 --red keep
mark domain.toml domain.cert --port p --workers 1 --red leave
drive domain.toml domain.cert
audit domain.toml
audit domain.toml domain.cert more";

#[test]
fn words_that_are_no_command(rt: HostRuntime) -> Result<(), Fail> {
    expect_no_plans(&rt, rt.alloc(), "", NO_COMMANDS)
}

/// Options that are not those of a meter: none of any kind, too few, those of another kind, or malformed ones.
const NO_OPTIONS: &str = "
--kind
--kind trtcm --mode blind --cir 8000 --cbs 1500 --pir 16000
--kind trtcm --mode blind --cir 8000 --cbs 1500 --pbs 3000
--kind trtcm --mode blind --cir 8000 --pir 16000 --pbs 3000
--kind trtcm --mode blind --cbs 1500 --pir 16000 --pbs 3000
--kind trtcm --cir 8000 --cbs 1500 --pir 16000 --pbs 3000
--mode blind --cir 8000 --cbs 1500 --pir 16000 --pbs 3000
--kind srtcm --mode blind --cir 8000 --cbs 1500
--kind srtcm --mode blind --cir 8000 --cbs 0 --ebs 0
--kind srtcm --mode blind --cir 8000 --cbs 1500 --ebs 1500 --pir 16000
--kind srtcm --mode blind --cir 8000 --cbs 1500 --ebs 1500 --pbs 1500
--kind srtcm --mode blind --cir 8000 --cbs 1500 --ebs 1500 --eir 16000
--kind trtcm --mode blind --cir 8000 --cbs 1500 --pir 16000 --pbs 3000 --eir 8000
--kind rfc4115 --mode blind --cir 8000 --cbs 1500 --ebs 1500
--kind rfc4115 --mode blind --cir 8000 --cbs 1500 --eir 8000
--kind rfc4115 --mode blind --cir 8000 --cbs 0 --eir 8000 --ebs 0
--kind rfc4115 --mode blind --cir 8000 --cbs 1500 --eir 8000 --ebs 1500 --pir 16000
--kind rfc4115 --mode blind --cir 8000 --cbs 1500 --eir 8000 --ebs 1500 --pbs 1500
--kind TRTCM --mode blind --cir 8000 --cbs 1500 --pir 16000 --pbs 3000
--kind trtcm --mode Aware --cir 8000 --cbs 1500 --pir 16000 --pbs 3000
--kind trtcm --mode blind --cir 8000 --cbs 1500 --pir 16000 --pbs 3000 --ebs 1
--kind trtcm --mode blind --cir 8000 --cbs 1500 --pir 16000 --pbs 3000 more
--kind trtcm --mode blind --cir 8000 --cbs 1500 --pir 16000 --pbs 3000\x20
--kind trtcm --mode blind --cir 8000 --cbs 1500 --pir 16000 --pbs 3000 -- more
--kind trtcm --mode blind --cir 8000 --cbs 1500 --pir 16000 --pbs 3000 --cir 8000
--kind trtcm --mode blind --cir 8000 --cbs 1500 --pir 16000 --pbs 3000 --origin
--kind trtcm --mode blind --cir 8000 --cbs 1500 --pi 16000 --pbs 3000
--kind trtcm --mode blind -cir 8000 --cbs 1500 --pir 16000 --pbs 3000";

#[test]
fn options_that_are_not_those_of_a_meter(rt: HostRuntime) -> Result<(), Fail> {
    expect_no_plans(&rt, rt.alloc(), "meter ", NO_OPTIONS)
}

/// Options of a meter of two rates whose figures are no numbers, or out of range, or not those of a meter.
const NO_FIGURES: &str = "--cir=0 --cbs=1 --pir=9 --pbs=1 --origin=0
--cir=10000000000001 --cbs=1 --pir=10000000000001 --pbs=1 --origin=0
--cir=1 --cbs=4294967296 --pir=9 --pbs=1 --origin=0
--cir=1 --cbs=1 --pir=9 --pbs=18446744073709551616 --origin=0
--cir=1 --cbs=1 --pir=9 --pbs=1 --origin=9223372036854775808
--cir=000000000000000000001 --cbs=1 --pir=9 --pbs=1 --origin=0
--cir=+1 --cbs=1 --pir=9 --pbs=1 --origin=0
--cir=-1 --cbs=1 --pir=9 --pbs=1 --origin=0
--cir=1_0 --cbs=1 --pir=99 --pbs=1 --origin=0
--cir=0x1 --cbs=1 --pir=9 --pbs=1 --origin=0
--cir=1.0 --cbs=1 --pir=9 --pbs=1 --origin=0
--cir=١ --cbs=1 --pir=9 --pbs=1 --origin=0
--cir= --cbs=1 --pir=9 --pbs=1 --origin=0
--cir=1 --cbs=0 --pir=9 --pbs=1 --origin=0
--cir=1 --cbs=1 --pir=9 --pbs=0 --origin=0
--cir=8000 --cbs=1 --pir=7000 --pbs=1 --origin=0";

#[test]
fn numbers_and_parameters_that_are_refused(rt: HostRuntime) -> Result<(), Fail> {
    expect_no_plans(
        &rt,
        rt.alloc(),
        "meter --kind trtcm --mode blind ",
        NO_FIGURES,
    )
}

/// The text that a line of words asks for: help, or the version.
fn text_for(alloc: Global, line: &str) -> Result<String, Fail> {
    let words = line.split(' ').collect::<Vec<&str>>(alloc)?;
    match plan(alloc, words.as_slice())? {
        Plan::Show(text) => Ok(text),
        _ => Err(Fail::from("no text")),
    }
}

/// Expects that a text has parts.
fn expect_parts(rt: &impl Abort, text: &str, parts: &[&str]) {
    for part in parts {
        assert!(rt; text.contains(*part), "{part}");
    }
}

/// Expects of lines of words that their help has parts.
fn expect_help(rt: &impl Abort, alloc: Global, lines: &[&str], parts: &[&str]) -> Result<(), Fail> {
    for line in lines {
        let help = text_for(alloc, line)?;
        expect_parts(rt, help.as_str(), parts);
    }
    Ok(())
}

#[test]
fn help_for_the_program_and_its_commands(rt: HostRuntime) -> Result<(), Fail> {
    let alloc = rt.alloc();
    let lines = ["--help", "-h", "help", "--help meter"];
    let own = ["Usage: dsedge <COMMAND>", "meter", "--explain"];
    expect_help(&rt, alloc, &lines, &own)?;
    let parts = [
        "Usage: dsedge envelope ",
        "--rate <RATE>",
        "--burst <BYTES>",
        "--explain",
    ];
    expect_help(&rt, alloc, &["envelope --help", "help envelope"], &parts)?;
    let lines = [
        "meter --help",
        "meter -h",
        "help meter",
        "meter --kind trtcm --help --cir",
    ];
    let own = [
        "Usage: dsedge meter ",
        "--kind <KIND>",
        "--mode <MODE>",
        "--origin <MOMENT>",
    ];
    expect_help(&rt, alloc, &lines, &own)?;
    let parts = [
        "--cir <RATE>",
        "--cbs <BYTES>",
        "--pir <RATE>",
        "--pbs <BYTES>",
        "--eir <RATE>",
        "--ebs <BYTES>",
    ];
    expect_help(&rt, alloc, &lines, &parts)
}

#[test]
fn the_version_and_the_logic_that_it_is_proved_with(rt: HostRuntime) -> Result<(), Fail> {
    for line in ["--version", "-V"] {
        let text = text_for(rt.alloc(), line)?;
        assert_eq!(rt; text.as_str(), "dsedge 0.1.0\nlogic dac8208d650f15bf\n");
    }
    Ok(())
}

#[test]
fn faults_by_their_numbers(rt: HostRuntime) {
    assert_eq!(rt; UsageFault::Usage.code(), 1);
    assert_eq!(rt; UsageFault::NoMemory.code(), 2);
}
