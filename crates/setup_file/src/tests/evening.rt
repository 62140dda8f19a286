use super::{Row, refuses};
use std::test::Fail;

/// Each member of an evening with each of its causes.
const MEMBERS: [Row; 34] = [
    (
        r#""control":{"initial":60,"increment":1,"first":5000},"#,
        r#""#,
        "Control 0 Missing",
    ),
    (
        r#""control":{"initial":60,"increment":1,"first":5000},"#,
        r#""control":null,"#,
        "Control 0 Kind",
    ),
    (
        r#""control":{"initial":60,"increment":1,"first":5000},"#,
        r#""control":[60,1],"#,
        "Control 0 Kind",
    ),
    (r#""initial":60,"#, r#""#, "Initial 0 Missing"),
    (r#""initial":60"#, r#""initial":"60""#, "Initial 0 Kind"),
    (r#""initial":60"#, r#""initial":60.0"#, "Initial 0 Kind"),
    (r#""initial":60"#, r#""initial":-1"#, "Initial 0 Kind"),
    (r#""initial":60"#, r#""initial":10801"#, "Initial 0 Range"),
    (r#""increment":1,"#, r#""#, "Increment 0 Missing"),
    (
        r#""increment":1"#,
        r#""increment":null"#,
        "Increment 0 Kind",
    ),
    (
        r#""increment":1"#,
        r#""increment":181"#,
        "Increment 0 Range",
    ),
    (
        r#""initial":60,"increment":1"#,
        r#""initial":0,"increment":0"#,
        "Increment 0 Range",
    ),
    (r#""first":5000"#, r#""first":5e3"#, "First 0 Kind"),
    (r#""first":5000"#, r#""first":999"#, "First 0 Range"),
    (r#""first":5000"#, r#""first":300001"#, "First 0 Range"),
    (r#""starts":1000,"#, r#""#, "Starts 0 Missing"),
    (r#""starts":1000"#, r#""starts":true"#, "Starts 0 Kind"),
    (
        r#""starts":1000"#,
        r#""starts":18446744073709551616"#,
        "Starts 0 Kind",
    ),
    (
        r#""starts":1000"#,
        r#""starts":18446744073709551615"#,
        "Starts 0 Range",
    ),
    (
        r#""starts":1000"#,
        r#""starts":900000000"#,
        "Starts 0 Range",
    ),
    (r#""ends":3600000,"#, r#""#, "Ends 0 Missing"),
    (r#""ends":3600000"#, r#""ends":{}"#, "Ends 0 Kind"),
    (r#""ends":3600000"#, r#""ends":1000"#, "Ends 0 Range"),
    (r#""ends":3600000"#, r#""ends":900000001"#, "Ends 0 Range"),
    (r#""wave":1000"#, r#""wave":null"#, "Wave 0 Kind"),
    (r#""wave":1000"#, r#""wave":99"#, "Wave 0 Range"),
    (r#""wave":1000"#, r#""wave":600001"#, "Wave 0 Range"),
    (r#""leaders":3"#, r#""leaders":"3""#, "Leaders 0 Kind"),
    (r#""leaders":3"#, r#""leaders":0"#, "Leaders 0 Range"),
    (r#""leaders":3"#, r#""leaders":21"#, "Leaders 0 Range"),
    (r#""rule":2"#, r#""rule":1.0"#, "Rule 0 Kind"),
    (r#""rule":2"#, r#""rule":null"#, "Rule 0 Kind"),
    (r#""rule":2"#, r#""rule":0"#, "Rule 0 Range"),
    (r#""rule":2"#, r#""rule":3"#, "Rule 0 Range"),
];

#[test]
fn each_member_of_an_evening_has_its_causes(rt: HostRuntime) -> Result<(), Fail> {
    refuses(&rt, rt.alloc(), &MEMBERS)
}
