// Names become visible and go out of sight.
use eb_base::{Memory, Text};
use eb_rule_names::VisibleNames;
use std::alloc::Global;
use std::test::Fail;

/// These names, visible in this order.
fn visible(alloc: Global, names: &[&str]) -> Result<VisibleNames<Text>, Memory> {
    let mut all = VisibleNames::new(alloc);
    for name in names {
        let text = Text::of(alloc, name.as_bytes())?;
        all.push(alloc, text)?;
    }
    Ok(all)
}

#[test]
fn the_first_of_a_name_is_found(rt: HostRuntime) -> Result<(), Fail> {
    let alloc = rt.alloc();
    let names = ["a", "b", "a", "", "ab"];
    let all = visible(alloc, &names)?;
    for (name, place) in [("a", 0), ("b", 1), ("", 3), ("ab", 4), ("c", 5)] {
        assert_eq!(rt; all.place(name.as_bytes()), place);
        assert_eq!(rt; all.find(name.as_bytes()).is_some(), place < 5);
    }
    Ok(())
}

#[test]
fn names_go_out_of_sight(rt: HostRuntime) -> Result<(), Fail> {
    let alloc = rt.alloc();
    let names = ["a", "b", "a", "c"];
    let mut all = visible(alloc, &names)?;
    all.truncate(7);
    assert_eq!(rt; all.len(), 4);
    all.truncate(2);
    for (name, place) in [("a", 0), ("b", 1), ("c", 2)] {
        assert_eq!(rt; all.place(name.as_bytes()), place);
    }
    all.truncate(0);
    assert!(rt; all.find(b"a").is_none());
    let text = Text::of(alloc, b"c")?;
    all.push(alloc, text)?;
    assert_eq!(rt; all.place(b"c"), 0);
    Ok(())
}
