//! Bits and the codes of syntax elements (7.2, 9.1).

use super::row_holds;
use expgolomb::{Bits, CodeFault};
use std::test::Fail;

#[test]
fn unsigned_codes(rt: HostRuntime) -> Result<(), Fail> {
    // Table 9-1: the first codes and their values.
    let codes = [0b1_010_011_0, 0b0100_0010, 0b1_0011_000];
    let mut bits = Bits::new(&codes);
    assert!(rt; bits.ue()? == 0);
    assert!(rt; bits.ue()? == 1);
    assert!(rt; bits.ue()? == 2);
    assert!(rt; bits.ue()? == 3);
    assert!(rt; bits.ue()? == 4);
    assert!(rt; bits.place() == 17);
    // 31 zeros, and the largest number after them.
    let longest = [0x00, 0x00, 0x00, 0x01, 0xFF, 0xFF, 0xFF, 0xFE];
    let mut bits = Bits::new(&longest);
    assert!(rt; bits.ue()? == 4_294_967_294);
    assert!(rt; bits.place() == 63);
    Ok(())
}

#[test]
fn codes_that_cannot_be_read(rt: HostRuntime) {
    let zeros = [0x00, 0x00, 0x00, 0x00, 0x80];
    let mut bits = Bits::new(&zeros);
    assert!(rt; bits.ue() == Err(CodeFault::TooLong));
    assert!(rt; bits.se() == Err(CodeFault::TooLong));
    assert!(rt; bits.place() == 0);
    let cut = [0x00, 0x00, 0x01];
    let mut bits = Bits::new(&cut);
    assert!(rt; bits.ue() == Err(CodeFault::Cut));
    assert!(rt; bits.fixed(25) == Err(CodeFault::Cut));
    assert!(rt; bits.place() == 0);
    let mut bits = Bits::new(&[]);
    assert!(rt; bits.bit() == Err(CodeFault::Cut));
    assert!(rt; bits.place() == 0);
}

#[test]
fn signed_codes(rt: HostRuntime) -> Result<(), Fail> {
    // Table 9-3: 0, 1, -1, 2, -2.
    let codes = [0b1_010_011_0, 0b0100_0010, 0b1_0000000];
    let mut bits = Bits::new(&codes);
    for value in [0, 1, -1, 2, -2] {
        assert!(rt; bits.se()? == value);
    }
    Ok(())
}

#[test]
fn bits_of_bytes(rt: HostRuntime) -> Result<(), Fail> {
    let bytes = [0xA5, 0x0F, 0x12, 0x34, 0x56];
    let mut bits = Bits::new(&bytes);
    assert!(rt; bits.bit()?);
    assert!(rt; !bits.bit()?);
    assert!(rt; bits.fixed(6)? == 0x25);
    assert!(rt; bits.fixed(32)? == 0x0F12_3456);
    assert!(rt; bits.place() == 40);
    Ok(())
}

/// Payloads, and whether there is data before their stop bits.
const DATA: [(&[u8], bool); 5] = [
    // A stop bit alone, with bytes of zeros after it, is no data.
    (&[0b1000_0000, 0x00], false),
    (&[0b1000_0001], true),
    (&[0b1000_0000, 0x00, 0x01], true),
    (&[0, 0], false),
    (&[], false),
];

#[test]
fn data_before_the_stop_bit(rt: HostRuntime) -> Result<(), Fail> {
    for (row, (bytes, wanted)) in DATA.iter().enumerate() {
        row_holds(&rt, row, Bits::new(bytes).more_data() == *wanted);
    }
    let mut bits = Bits::new(&[0b1000_0000, 0x00, 0x01]);
    let _front = bits.fixed(23)?;
    assert!(rt; !bits.more_data());
    let _last = bits.bit()?;
    assert!(rt; !bits.more_data());
    Ok(())
}

/// Each fault with its number and its text.
const TOLD: [(CodeFault, u8, &str); 2] = [
    (CodeFault::Cut, 1, "the bits end within a code"),
    (
        CodeFault::TooLong,
        2,
        "a code has more than 31 zeros at its front",
    ),
];

#[test]
fn tells_faults_of_a_code(rt: HostRuntime) -> Result<(), Fail> {
    for (row, (fault, number, text)) in TOLD.iter().enumerate() {
        let told = format!(in rt.alloc(); "{fault}")?;
        row_holds(
            &rt,
            row,
            fault.number() == *number && told.as_str() == *text,
        );
    }
    Ok(())
}
