//! What a counted writer passes on, and the texts of numbers at their ends.
use crate::telling::{Lack, said};
use counted_io::{Counted, WriteFault, put, put_decimal, put_hexadecimal, put_signed};
use std::io;
use std::io::{Error, ErrorKind, Write};

/// A writer that fails at its first flush, and then at each second one. It counts them.
#[derive(Drop)]
struct Fitful {
    flushes: u32,
}

impl Write for Fitful {
    fn write(&mut self, piece: &[u8]) -> io::Result<usize> {
        Ok(piece.len())
    }

    fn flush(&mut self) -> io::Result<()> {
        self.flushes = self.flushes.saturating_add(1);
        if self.flushes % 2 == 1 {
            Err(Error::from(ErrorKind::Other))
        } else {
            Ok(())
        }
    }
}

/// How many of ten flushes fail.
fn failed_flushes(writer: &mut Counted<Fitful>) -> u64 {
    let mut failed = 0u64;
    for _ in 0..10 {
        if writer.flush().is_err() {
            failed = failed.saturating_add(1);
        }
    }
    failed
}

/// Of ten flushes, how many fail, how many failures are counted, and how many are passed on; then
/// numbers: the greatest, the least with a sign, and two in hexadecimal.
pub fn pass_on<W: Write>(output: &mut Counted<W>) -> Result<(), Lack> {
    let mut writer = Counted::new(Fitful { flushes: 0 });
    let failed = failed_flushes(&mut writer);
    let counted = writer.failures();
    let passed = u64::from(writer.into_inner().flushes);
    said(put_numbers(output, failed, counted, passed))
}

/// Writes these numbers, and those at the ends.
fn put_numbers<W: Write>(
    output: &mut Counted<W>,
    failed: u64,
    counted: u64,
    passed: u64,
) -> Result<(), WriteFault> {
    let mut told = Ok(());
    for number in [failed, counted, passed, u64::MAX] {
        told = put_decimal(output, told, number);
        told = put(output, told, b" ");
    }
    let told = put_signed(output, told, i64::MIN);
    let told = put(output, told, b" ");
    let told = put_hexadecimal(output, told, 0);
    let told = put(output, told, b" ");
    put_hexadecimal(output, told, 0xfedc_ba98_7654_3210)
}
