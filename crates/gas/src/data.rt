//! Data: numbers, strings, zeros and padding.
ghost use Rattle.std.specs.Prelude.{◌≤◌, ◌<◌};

use crate::assembler::Assembler;
use crate::fault::{Stop, Usage, Wrong};
use crate::layout::padding;
use crate::operands::{Call, Operand};
use crate::quoted::bytes_of;
use crate::tokens::Kind;
use crate::value::{Base, Section};
use std::alloc::AllocError;

/// How many bytes a number takes.
#[derive(Clone, Copy)]
pub enum Width {
    One,
    Two,
    Four,
    Eight,
}

const NUMBERS: Usage = Usage {
    takes: "numbers",
    example: "1, 2, 3",
};

const STRINGS: Usage = Usage {
    takes: "strings",
    example: "\"hi\\n\"",
};

const COUNT: Usage = Usage {
    takes: "how many bytes, and maybe their value",
    example: "64, 0",
};

const FILL: Usage = Usage {
    takes: "how often, and maybe a size of up to 8 bytes and a value",
    example: "16, 4, 0",
};

const ALIGN: Usage = Usage {
    takes: "a number",
    example: "4",
};

// The most bytes that a program may have.
const LIMIT: i64 = 270_336;

// Whether a text's byte is written as it is.
fn is_shown(byte: u8) -> bool {
    byte >= b' ' && byte < 127 && byte != b'"' && byte != b'\\'
}

impl<'a> Assembler<'a> {
    fn put_byte(&mut self, byte: u8) -> Result<(), AllocError> {
        self.output.counted(".byte", i64::from(byte))
    }

    // Two bytes, which the expanded text has one by one.
    fn put_two(&mut self, number: i64) -> Result<(), AllocError> {
        let [low, high] = ((number.cast_unsigned() % 0x1_0000) as u16).to_le_bytes();
        self.put_byte(low)?;
        self.put_byte(high)
    }

    // The way from an address to another one, which may lie in another section.
    fn way_between(&self, operand: &Operand<'a>) -> Result<Option<i64>, Stop> {
        let Some((to, from)) = operand.difference() else {
            return Ok(None);
        };
        let to = self.value(&to)?;
        let from = self.value(&from)?;
        match (to.base, from.base) {
            (Base::Section(_, _), Base::Section(_, _)) => {
                let way = self
                    .layout
                    .address(to)
                    .wrapping_sub(self.layout.address(from));
                Ok(Some(way))
            }
            _ => Ok(None),
        }
    }

    fn datum(&mut self, width: Width, operand: &Operand<'a>) -> Result<(), Stop> {
        let number = match self.way_between(operand)? {
            Some(way) => way,
            None => self.address_of(operand)?,
        };
        let column = operand.column;
        match width {
            Width::One => {
                let number = self.within(number, -0x80, 0xff, column)?;
                self.output.counted(".byte", number)?;
            }
            Width::Two => {
                let number = self.within(number, -0x8000, 0xffff, column)?;
                self.put_two(number)?;
            }
            Width::Four => {
                let number = self.within(number, -0x8000_0000, 0xffff_ffff, column)?;
                self.output.counted(".word", number)?;
            }
            Width::Eight => self.output.counted(".dword", number)?,
        }
        Ok(())
    }

    /// Numbers, one after the other.
    pub(crate) fn data(&mut self, width: Width, call: &Call<'_, 'a>) -> Result<(), Stop> {
        if call.operands.is_empty() {
            return Err(call.misused(NUMBERS));
        }
        let size = match width {
            Width::One => 1,
            Width::Two => 2,
            Width::Four => 4,
            Width::Eight => 8,
        };
        for operand in call.operands {
            self.here = self.layout.here();
            self.layout.advance(size);
            self.datum(width, operand)?;
        }
        Ok(())
    }

    // A byte of a string between quotes.
    fn put_character(&mut self, byte: u8) -> Result<(), AllocError> {
        match byte {
            b'\n' => self.output.put(b"\\n"),
            b'"' => self.output.put(b"\\\""),
            b'\\' => self.output.put(b"\\\\"),
            0 => self.output.put(b"\\0"),
            _ => self.output.put(&[byte]),
        }
    }

    // A string: its bytes between quotes, but those that the expanded text can't have there.
    fn put_text(&mut self, bytes: &[u8]) -> Result<(), AllocError> {
        let mut is_open = false;
        for byte in bytes {
            let fits = is_shown(*byte) || matches!(*byte, b'\n' | b'"' | b'\\' | 0);
            if fits && !is_open {
                self.output.put(b"    .ascii \"")?;
            }
            if !fits && is_open {
                self.output.put(b"\"\n")?;
            }
            is_open = fits;
            if fits {
                self.put_character(*byte)?;
            } else {
                self.put_byte(*byte)?;
            }
        }
        if is_open {
            self.output.put(b"\"\n")?;
        }
        Ok(())
    }

    fn text(&mut self, operand: &Operand<'a>, is_ended: bool) -> Result<(), Stop> {
        let [token] = operand.tokens else {
            return Err(Stop::Wrong(Wrong::Quote, operand.column));
        };
        let Kind::Text(text) = token.kind else {
            return Err(Stop::Wrong(Wrong::Quote, operand.column));
        };
        let mut bytes = match bytes_of(self.alloc, text)? {
            Ok(bytes) => bytes,
            Err(wrong) => return Err(Stop::Wrong(wrong, operand.column)),
        };
        if is_ended {
            bytes.push(0)?;
        }
        self.layout.advance(bytes.len() as u64);
        self.put_text(&bytes)?;
        Ok(())
    }

    /// Strings, each with a zero after it or not.
    pub(crate) fn texts(&mut self, is_ended: bool, call: &Call<'_, 'a>) -> Result<(), Stop> {
        if call.operands.is_empty() {
            return Err(call.misused(STRINGS));
        }
        for operand in call.operands {
            self.text(operand, is_ended)?;
        }
        Ok(())
    }

    // Goes on by that many bytes, and returns whether they are written: not where the program is too long anyway.
    fn reserve(&mut self, count: u64) -> bool {
        self.layout.advance(count);
        self.layout.offset() <= LIMIT.cast_unsigned()
    }

    // The first bytes of a number of four, and zeros after them.
    fn put_part(&mut self, number: i64, size: u64) -> Result<(), AllocError> {
        let bytes = (number.cast_unsigned() % 0x1_0000_0000).to_le_bytes();
        for (byte, _) in bytes.iter().zip(0..size) {
            self.put_byte(*byte)?;
        }
        Ok(())
    }

    // A size of at most eight bytes, and a value: one and zero where they are left out.
    fn filling(&mut self, operands: &[Operand<'a>]) -> Result<(u64, i64), Stop> {
        let size = match operands {
            [size, ..] => self.early_number(size)?,
            [] => 1,
        };
        let value = match operands {
            [_, value, ..] => self.early_number(value)?,
            _ => 0,
        };
        match operands {
            [size_operand, ..] if size < 0 || size > 8 => {
                Err(Stop::Wrong(Wrong::Range(0, 8), size_operand.column))
            }
            _ => Ok((size.cast_unsigned(), value)),
        }
    }

    /// .fill count, size, value
    pub(crate) fn fill(&mut self, call: &Call<'_, 'a>) -> Result<(), Stop> {
        let [count, filling @ ..] = call.operands else {
            return Err(call.misused(FILL));
        };
        if filling.len() > 2 {
            return Err(call.misused(FILL));
        }
        let count = self.count(count)?;
        let (size, value) = self.filling(filling)?;
        let total = count.saturating_mul(size);
        if value == 0 {
            self.put_bytes(total, 0)?;
        } else if self.reserve(total) {
            for _ in 0..count {
                self.put_part(value, size)?;
            }
        }
        Ok(())
    }

    // That many times a byte.
    fn put_bytes(&mut self, count: u64, byte: u8) -> Result<(), AllocError> {
        if !self.reserve(count) || count == 0 {
            return Ok(());
        }
        if byte == 0 {
            return self.output.counted(".zero", count.cast_signed());
        }
        for _ in 0..count {
            self.put_byte(byte)?;
        }
        Ok(())
    }

    // A count of bytes, which a program can have.
    fn count(&mut self, operand: &Operand<'a>) -> Result<u64, Stop> {
        let number = self.early_number(operand)?;
        if number < 0 || number > LIMIT {
            return Err(Stop::Wrong(Wrong::Range(0, LIMIT), operand.column));
        }
        Ok(number.cast_unsigned())
    }

    // The byte that fills a space.
    fn filler(&mut self, operand: &Operand<'a>) -> Result<u8, Stop> {
        let number = self.early_number(operand)?;
        if number < -0x80 || number > 0xff {
            return Err(Stop::Wrong(Wrong::Range(-0x80, 0xff), operand.column));
        }
        Ok((number.cast_unsigned() % 256) as u8)
    }

    /// .space count, and .space count, byte
    pub(crate) fn space(&mut self, call: &Call<'_, 'a>) -> Result<(), Stop> {
        match call.operands {
            [count] => {
                let count = self.count(count)?;
                self.put_bytes(count, 0)?;
            }
            [count, byte] => {
                let count = self.count(count)?;
                let byte = self.filler(byte)?;
                self.put_bytes(count, byte)?;
            }
            _ => return Err(call.misused(COUNT)),
        }
        Ok(())
    }

    // As `as` does: a zero up to an even address, then instructions that do nothing, the first of two bytes.
    fn put_nops(&mut self, count: u64) -> Result<(), AllocError> {
        if !self.reserve(count) {
            return Ok(());
        }
        if count % 2 == 1 {
            self.output.counted(".zero", 1)?;
        }
        if count % 4 >= 2 {
            self.put_two(1)?;
        }
        for _ in 0..count / 4 {
            self.output.put(b"    addi zero, zero, 0\n")?;
        }
        Ok(())
    }

    // Up to a multiple of that.
    fn pad(&mut self, align: u64) -> Result<(), AllocError> {
        self.layout.align(align);
        let count = padding(self.layout.offset(), align);
        if self.layout.section == Section::Text {
            return self.put_nops(count);
        }
        self.put_bytes(count, 0)
    }

    // Up to a multiple of that, filled with a byte.
    fn pad_with(&mut self, align: u64, byte: &Operand<'a>) -> Result<(), Stop> {
        let byte = self.filler(byte)?;
        self.layout.align(align);
        let count = padding(self.layout.offset(), align);
        self.put_bytes(count, byte)?;
        Ok(())
    }

    // The multiple that an operand is, or is the power of two of; up to a page.
    fn multiple(&mut self, is_power: bool, operand: &Operand<'a>) -> Result<u64, Stop> {
        let number = self.early_number(operand)?;
        let most = if is_power { 12 } else { 4096 };
        if number < 0 || number > most {
            return Err(Stop::Wrong(Wrong::Range(0, most), operand.column));
        }
        let number = number.cast_unsigned();
        if is_power {
            return Ok(1u64.wrapping_shl((number % 64) as u32));
        }
        if number.is_power_of_two() {
            return Ok(number);
        }
        Err(Stop::Wrong(Wrong::Power, operand.column))
    }

    /// .align, .p2align, .balign
    pub(crate) fn align(&mut self, is_power: bool, call: &Call<'_, 'a>) -> Result<(), Stop> {
        match call.operands {
            [align] => {
                let align = self.multiple(is_power, align)?;
                self.pad(align)?;
            }
            [align, byte, ..] => {
                let align = self.multiple(is_power, align)?;
                if byte.tokens.is_empty() {
                    self.pad(align)?;
                } else {
                    self.pad_with(align, byte)?;
                }
            }
            [] => return Err(call.misused(ALIGN)),
        }
        Ok(())
    }

    /// A name for zeros at a multiple.
    pub(crate) fn put_common(
        &mut self,
        name: &'a [u8],
        column: usize,
        count: &Operand<'a>,
        align: &[Operand<'a>],
    ) -> Result<(), Stop> {
        let count = self.count(count)?;
        if let [align, ..] = align {
            let align = self.multiple(false, align)?;
            self.pad(align)?;
        }
        self.label(name, column)?;
        self.put_bytes(count, 0)?;
        Ok(())
    }

    /// Ends the instructions of a file at a multiple of what they lie at.
    pub(crate) fn close_text(&mut self) -> Result<(), AllocError> {
        self.layout.section = Section::Text;
        self.output.go_to(Section::Text);
        self.output.begin(None);
        let part = self.layout.part(Section::Text);
        self.put_nops(padding(part.offset, part.align))
    }
}
