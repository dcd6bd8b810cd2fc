//! Settings and their bounds.

use er_settings::Settings;
use std::test::Fail;

#[test]
fn prints_a_fault(rt: HostRuntime) -> Result<(), Fail> {
    let text = match Settings::new(8, 15, 128, 1_000, 5, 40_000) {
        Ok(_) => String::new(rt.alloc()),
        Err(fault) => format!(in rt.alloc(); "{fault}")?,
    };
    assert!(rt; text.as_str() == "the setting Window may not be 8");
    Ok(())
}
