// Lines, codes and types as they are printed.
use common::{IdCode, Port};
use std::test::Fail;
use wire::FrameType;

// Lines and codes are printed as their bare numbers are, in columns too.
#[test]
fn padded_numbers(rt: HostRuntime) -> Result<(), Fail> {
    let heap = rt.alloc();
    let port = Port(7);
    let id = IdCode(7734);
    let ports = format!(in heap; "{port} [{port:>4}] [{port:<3}] [{port:02}] [{port:*^5}]")?;
    assert_eq!(rt; ports.as_str(), "7 [   7] [7  ] [07] [**7**]");
    let ids = format!(in heap; "{id} [{id:>5}] [{id:<6}] [{id:05}] [{id:*<5}]")?;
    assert_eq!(rt; ids.as_str(), "7734 [ 7734] [7734  ] [07734] [7734*]");
    Ok(())
}

// The names of the six types, bare and in columns.
#[test]
fn padded_names(rt: HostRuntime) -> Result<(), Fail> {
    let heap = rt.alloc();
    for (kind, want) in [
        (FrameType::Data, "data|data           |      data"),
        (FrameType::Header, "header|header         |    header"),
        (
            FrameType::Config1,
            "configuration 1|configuration 1|configuration 1",
        ),
        (
            FrameType::Config2,
            "configuration 2|configuration 2|configuration 2",
        ),
        (FrameType::Command, "command|command        |   command"),
        (
            FrameType::Config3,
            "configuration 3|configuration 3|configuration 3",
        ),
    ] {
        let text = format!(in heap; "{kind}|{kind:<15}|{kind:>10}")?;
        assert_eq!(rt; text.as_str(), want);
    }
    Ok(())
}
