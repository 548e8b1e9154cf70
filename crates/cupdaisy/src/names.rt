//! The names of statuses, of faults and of reasons why bytes are left out, and the version.

ghost use Rattle.std.specs.Prelude.{◌≡◌, codes};
ghost use Rattle.c_calls.specs.Filling.{Fills};
ghost use Rattle.c_calls.specs.Names.{FillsName, faults, name_in, name_of_status, whys};

/// Writes the name of a status.
#[unsafe(no_mangle)]
pub extern "C" fn cupdaisy_status_name(status: u32, name: &mut [u8], needed: &mut usize) -> u32
    ensures { FillsName (name_of_status status) result name.old name.new needed.old needed.new }
{
    c_calls::status_name(status, name, needed)
}

/// Writes the name of a fault.
#[unsafe(no_mangle)]
pub extern "C" fn cupdaisy_fault_name(fault: u32, name: &mut [u8], needed: &mut usize) -> u32
    ensures { FillsName (name_in faults fault) result name.old name.new needed.old needed.new }
{
    c_calls::fault_name(fault, name, needed)
}

/// Writes the name of a reason why bytes are left out of a text that is mended.
#[unsafe(no_mangle)]
pub extern "C" fn cupdaisy_why_name(why: u32, name: &mut [u8], needed: &mut usize) -> u32
    ensures { FillsName (name_in whys why) result name.old name.new needed.old needed.new }
{
    c_calls::why_name(why, name, needed)
}

/// The version.
#[unsafe(no_mangle)]
pub extern "C" fn cupdaisy_version() -> u32
    ensures { result ≡ 3000 }
{
    c_calls::version()
}

/// Writes the version as text.
#[unsafe(no_mangle)]
pub extern "C" fn cupdaisy_version_text(text: &mut [u8], needed: &mut usize) -> u32
    ensures { Fills (codes "0.3.0") result text.old text.new needed.new }
{
    c_calls::version_text(text, needed)
}
