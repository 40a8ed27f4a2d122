/// A trusted contract from port `p` over meter `m`, but for its name and its envelope.
pub const TRUSTED: &str = r#"
[[contract]]
kind = "trusted"
port = "p"
path = ["m"]
"#;

/// The same over no meter yet.
pub const ANYWHERE: &str = r#"
[[contract]]
kind = "trusted"
port = "p"
"#;

/// The names of four contracts, with a class and a source each.
pub const A: &str = "name = \"a\"\nclass = 1\nsrc = \"10.0.0.0/24\"\n";

pub const B: &str = "name = \"b\"\nclass = 2\nsrc = \"10.0.1.0/24\"\n";

pub const C: &str = "name = \"c\"\nclass = 3\nsrc = \"10.0.2.0/24\"\n";

pub const D: &str = "name = \"d\"\nclass = 4\nsrc = \"10.0.3.0/24\"\n";

/// An envelope of 8 Mbit/s and 3,000 bytes.
pub const SHARE: &str = "cir = 8000000\ncbs = 3000\n";

/// Its peak.
pub const PEAK: &str = "pir = 16000000\npbs = 4000\n";

/// Its excess.
pub const EXCESS: &str = "eir = 8000000\nebs = 1000\n";

/// The same with a byte more.
pub const TOO_MUCH: &str = "eir = 8000000\nebs = 1001\n";

/// A contract from port `p` over meter `m` that is policed by a blind meter, but for its name and that meter.
pub const POLICED: &str = r#"
[[contract]]
port = "p"
path = ["m"]
mode = "blind"
"#;

/// The names of two such contracts, with a class each.
pub const U: &str = "name = \"u\"\nclass = 1\n";

pub const V: &str = "name = \"v\"\nclass = 2\n";

/// A meter of 8 Mbit/s and 1,500 bytes, and 16 Mbit/s and 3,000 bytes.
pub const TWO_RATES: &str =
    "kind = \"trtcm\"\ncir = 8000000\ncbs = 1500\npir = 16000000\npbs = 3000\n";

/// The same with bursts of 150 and 300 bytes.
pub const NARROW: &str = "kind = \"trtcm\"\ncir = 8000000\ncbs = 150\npir = 16000000\npbs = 300\n";

/// A meter of a committed and an excess rate of 8 Mbit/s each, with 1,500 bytes and 500 more.
pub const SEPARATE_RATES: &str =
    "kind = \"rfc4115\"\ncir = 8000000\ncbs = 1500\neir = 8000000\nebs = 500\n";

/// The envelope of a contract over a slow meter without a peak, and of one with a peak.
pub const PLAIN: &str = "cir = 8000\ncbs = 1001\n";

pub const PEAKED: &str = "cir = 8000\ncbs = 100\npir = 8000\npbs = 100\n";

/// Packets of UDP alone.
pub const UDP: &str = "protocol = 17\n";
