use ds_domain::parse;
use dsedge_words::flaw_said;
use std::alloc::Global;
use std::process::Abort;

/// The first 19 lines of each text: a meter, a port, and a link from one to the other.
const WAY: &str = "[[meter]]\n\
    name = \"m\"\n\
    kind = \"trtcm\"\n\
    cir = 24000000\n\
    cbs = 13500\n\
    pir = 24000000\n\
    pbs = 13500\n\
    skew = 500000\n\
    \n\
    [[port]]\n\
    name = \"p\"\n\
    skew = 0\n\
    \n\
    [[link]]\n\
    from = \"p\"\n\
    to = \"m\"\n\
    floor = 0\n\
    jitter = 1000000\n\
    \n";

/// Expects of a text behind these lines what is said of its first fault.
fn expect_said(rt: &impl Abort, alloc: Global, name: &str, behind: &str, wanted: &str) {
    let text = format!(in alloc; "{WAY}{behind}").expect(rt, "a text");
    let said = match parse(alloc, text.as_bytes()) {
        Ok(_) => String::new(alloc),
        Err(fault) => flaw_said(alloc, "net.toml", text.as_bytes(), &fault).expect(rt, "words"),
    };
    assert_eq!(rt; (name, said.as_str()), (name, wanted));
}

#[test]
fn values_out_of_range(rt: HostRuntime) {
    expect_said(
        &rt,
        rt.alloc(),
        "a capital letter in a name",
        "[[contract]]\nname = \"Gold\"\nkind = \"trusted\"\nport = \"p\"\npath = [\"m\"]\nclass = 1\n\
            cir = 8000000\ncbs = 3000\n",
        "net.toml:21:1: contract \"Gold\": name = \"Gold\"\n\
            name: 1 to 32 of a to z, 0 to 9, - and _\n",
    );
    expect_said(
        &rt,
        rt.alloc(),
        "a peak rate below the committed one",
        "[[meter]]\nname = \"n\"\nkind = \"trtcm\"\ncir = 10000000\ncbs = 1\npir = 9\npbs = 1\nskew = 0\n",
        "net.toml:25:1: meter \"n\": pir = 9\n\
            pir: at least cir, which is 10000000\n",
    );
    expect_said(
        &rt,
        rt.alloc(),
        "a delay of another type",
        "[[port]]\nname = \"q\"\nskew = \"0\"\n",
        "net.toml:22:1: port \"q\": skew = \"0\"\n\
            skew: 0 to 10000000000, in nanoseconds\n",
    );
}

#[test]
fn texts_that_are_no_toml(rt: HostRuntime) {
    expect_said(
        &rt,
        rt.alloc(),
        "a bracket is missing",
        "[[contract]\nname = \"gold\"\n",
        "net.toml:20:12: unclosed array table, expected `]]`\n",
    );
}

#[test]
fn keys_that_are_missing_or_unknown(rt: HostRuntime) {
    expect_said(
        &rt,
        rt.alloc(),
        "a key is missing",
        "[[port]]\nname = \"q\"\n",
        "net.toml:20:1: port \"q\": skew is missing\n\
            a port has name, skew\n",
    );
    expect_said(
        &rt,
        rt.alloc(),
        "a key of no meaning",
        "[[port]]\nname = \"q\"\nskew = 0\nskeww = 1\n",
        "net.toml:23:1: port \"q\": skeww = 1\n\
            nothing of the name \"skeww\"; the nearest is \"skew\"\n\
            a port has name, skew\n",
    );
}

#[test]
fn names_that_name_nothing(rt: HostRuntime) {
    expect_said(
        &rt,
        rt.alloc(),
        "a port that there is not",
        "[[contract]]\nname = \"gold\"\nkind = \"trusted\"\nport = \"pp\"\npath = [\"m\"]\nclass = 1\n\
            cir = 8000000\ncbs = 3000\n",
        "net.toml:23:1: contract \"gold\": port = \"pp\"\n\
            port: nothing of the name \"pp\"; the nearest is \"p\"\n",
    );
    expect_said(
        &rt,
        rt.alloc(),
        "a path over several lines",
        "[[contract]]\nname = \"gold\"\nkind = \"trusted\"\nport = \"p\"\npath = [\n\"m\",\n\"m\",\n]\nclass = 1\n\
            cir = 8000000\ncbs = 3000\n",
        "net.toml:24:1: contract \"gold\": path = [ ...\n\
            path: each meter once, and not again \"m\"\n",
    );
}
