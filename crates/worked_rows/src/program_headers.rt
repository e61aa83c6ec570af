//! The headers of a program file.
use elf::{ElfFault, FileHeader, HEADER_SIZE, LoadSegment, PROGRAM_HEADER_SIZE, header, segment};

// Puts these words from the first byte on, each lowest byte first.
fn put(bytes: &mut [u8], words: &[u64]) {
    for (at, place) in bytes.iter_mut().enumerate() {
        if let Some(word) = words.get(at / 8) {
            *place = word.to_le_bytes()[at % 8];
        }
    }
}

// The header of a file with `count` program headers from an offset on, whose entry is 6.
fn header_with(program_headers: u64, count: u16) -> [u8; HEADER_SIZE] {
    let mut bytes = [0; HEADER_SIZE];
    put(
        &mut bytes,
        &[0x464C_457F, 0, 0, 6, program_headers, 0, 0, count as u64],
    );
    bytes
}

// A program header with these numbers, that may be written and not executed, at offset 4096.
fn program_header(kind: u64, address: u64, file_size: u64, size: u64) -> [u8; PROGRAM_HEADER_SIZE] {
    let mut bytes = [0; PROGRAM_HEADER_SIZE];
    put(
        &mut bytes,
        &[kind | 6 << 32, 4096, address, 0, file_size, size, 0],
    );
    bytes
}

#[test]
fn reads_the_header_of_a_file(rt: HostRuntime) {
    assert!(rt; header(&[0; HEADER_SIZE], 4096) == Err(ElfFault::Magic));
    for (at, count, len, fits) in [
        (64, 2, 176, true),
        (64, 2, 175, false),
        (64, 0, 64, true),
        (64, 0, 63, false),
        (64, 65535, 120, false),
        (0xffff_ffff_ffff_fff0, 1, 4096, false),
        (0xffff_ffff_ffff_fff0, 0, 4096, true),
    ] {
        let told = FileHeader {
            entry: 4,
            program_headers: at,
            count,
        };
        let told = if fits { Ok(told) } else { Err(ElfFault::Short) };
        assert!(rt;
            header(&header_with(at, count), len) == told,
            "{count} at {at}"
        );
    }
}

#[test]
fn reads_a_program_header(rt: HostRuntime) {
    let told = LoadSegment {
        writable: true,
        executable: false,
        offset: 4096,
        address: 8192,
        file_size: 3,
        size: 5,
    };
    assert!(rt; segment(&program_header(1, 8192, 3, 5), 4097, 4099) == Ok(Some(told)));
    assert!(rt; segment(&program_header(6, 1, 5, 3), 0, 0) == Ok(None));
}

#[test]
fn tells_what_is_wrong_with_a_segment(rt: HostRuntime) {
    for (address, file_size, size, fault) in [
        (8192, 1, 0, ElfFault::Sizes),
        (0xffff_ffff_ffff_f000, 0, 4096, ElfFault::Sizes),
        (8193, 0, 1, ElfFault::Align),
        (4096, 0, 1, ElfFault::Overlap),
        (8192, 4, 4, ElfFault::Short),
    ] {
        let answer = segment(&program_header(1, address, file_size, size), 8192, 4099);
        assert!(rt; answer == Err(fault), "{address}");
    }
}
