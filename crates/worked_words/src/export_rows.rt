use dsedge_export::{Device, Exported, export};
use dsedge_texts::QuoteFault;
use std::alloc::Global;
use std::process::Abort;
use worked_texts::{
    A, B, C, EXCESS, EXCESS_WAY, LINK, METER, PEAK, PLAIN, PORT, SHARE, SINGLE_RATE, TRUSTED, TWO,
    joined,
};

/// Three contracts that take all that a meter has.
const THREE: &[&str] = &[
    METER, PORT, LINK, TRUSTED, A, SHARE, TRUSTED, B, SHARE, TRUSTED, C, SHARE,
];

/// A contract with an excess of its own.
const EXCESS_ALONE: &[&str] = &[TWO, EXCESS_WAY, TRUSTED, A, SHARE, PEAK, EXCESS];

/// Meters without a committed bucket.
const NONE_COMMITTED: &[&str] = &[
    r#"
meter = [
    { name = "n", kind = "srtcm", cir = 8000000, cbs = 0, ebs = 1000, skew = 0 },
    { name = "m", kind = "rfc4115", cir = 8000000, cbs = 0, eir = 8000000, ebs = 2000, skew = 0 },
]
"#,
];

/// The parts of a domain, the name of a meter, a device, and what is told.
type Row = (&'static [&'static str], &'static str, Device, &'static str);

static EXPORTS: [Row; 9] = [
    (
        THREE,
        "m",
        Device::Police,
        "actions add action police rate 24000000bit burst 13500 mtu 65535 conform-exceed pipe/ok index 1\n\
        actions add action police rate 24000000bit burst 13500 mtu 65535 conform-exceed drop/pipe index 2\n\
        rate cir 24000000 24000000\nrate pir 24000000 24000000\n\
        burst cbs 13500 13499\nburst pbs 13500 13499\n\
        refused 5 GreenBurst m 13500 13499\n",
    ),
    (
        THREE,
        "m",
        Device::RteMeter,
        "struct rte_meter_trtcm_params params = { .cir = 3000000, .pir = 3000000, .cbs = 13500, .pbs = 13500 };\n\
        rate cir 24000000 24024024\nrate pir 24000000 24024024\n\
        burst cbs 13500 13500\nburst pbs 13500 13500\naccepted\n",
    ),
    (
        EXCESS_ALONE,
        "m",
        Device::Police,
        "actions add action police rate 8000000bit burst 4000 mtu 65535 conform-exceed pipe/ok index 1\n\
        actions add action police rate 8000000bit burst 2000 mtu 65535 conform-exceed drop/pipe index 2\n\
        rate cir 8000000 8000000\nrate eir 8000000 8000000\n\
        burst cbs 4000 4000\nburst ebs 2000 2000\naccepted\n",
    ),
    (
        EXCESS_ALONE,
        "m",
        Device::RteMeter,
        "struct rte_meter_trtcm_rfc4115_params params = { .cir = 1000000, .eir = 1000000, .cbs = 4000, .ebs = 2000 };\n\
        rate cir 8000000 8000000\nrate eir 8000000 8000000\n\
        burst cbs 4000 4000\nburst ebs 2000 2000\naccepted\n",
    ),
    (
        &[SINGLE_RATE, TRUSTED, A, PLAIN],
        "m",
        Device::RteMeter,
        "struct rte_meter_srtcm_params params = { .cir = 3000, .cbs = 2000, .ebs = 1000 };\n\
        rate cir 24000 24000\nburst cbs 2000 2000\nburst ebs 1000 1000\naccepted\n",
    ),
    (
        &[SINGLE_RATE, TRUSTED, A, PLAIN],
        "m",
        Device::Police,
        "none kind\n",
    ),
    (
        NONE_COMMITTED,
        "n",
        Device::RteMeter,
        "struct rte_meter_srtcm_params params = { .cir = 1000000, .cbs = 0, .ebs = 1000 };\n\
        rate cir 8000000 8000000\nburst cbs 0 0\nburst ebs 1000 1000\naccepted\n",
    ),
    (NONE_COMMITTED, "m", Device::RteMeter, "none cbs\n"),
    (THREE, "p", Device::RteMeter, "no meter"),
];

/// What is told of an export, or why there is none.
fn told(answer: &Result<Exported, QuoteFault>) -> &[u8] {
    match answer {
        Ok(exported) => exported.text.as_slice(),
        Err(QuoteFault::NoField) => b"no meter",
        Err(_) => b"a text with a fault",
    }
}

/// Expects of a row what is told of its meter.
fn expect_exported(rt: &impl Abort, alloc: Global, (parts, name, device, wanted): &Row) {
    let text = joined(alloc, parts).expect(rt, "memory for a text");
    let answer = export(alloc, text.as_bytes(), name, *device);
    assert_eq!(rt; (wanted, told(&answer)), (wanted, wanted.as_bytes()));
}

#[test]
fn meters_are_exported(rt: HostRuntime) {
    for row in &EXPORTS {
        expect_exported(&rt, rt.alloc(), row);
    }
}
