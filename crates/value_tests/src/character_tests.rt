use bits_value::{Bits, Endian, UtfKind, copy_bits};
use utf_segments::{character_reads_back, decode, encode, one_character};

#[test]
fn characters_are_spelled_as_the_standards_say(rt: HostRuntime) {
    // the examples of RFC 3629, section 7, and of RFC 2781, section 4.3, and the boundaries of each form
    let rows: [(UtfKind, Endian, i128, &[u8]); 26] = [
        (UtfKind::Utf8, Endian::Big, 0x41, &[0x41]),
        (UtfKind::Utf8, Endian::Little, 0x2262, &[0xE2, 0x89, 0xA2]),
        (UtfKind::Utf8, Endian::Big, 0x0391, &[0xCE, 0x91]),
        (UtfKind::Utf8, Endian::Big, 0xD55C, &[0xED, 0x95, 0x9C]),
        (UtfKind::Utf8, Endian::Big, 0x65E5, &[0xE6, 0x97, 0xA5]),
        (UtfKind::Utf8, Endian::Big, 0xFEFF, &[0xEF, 0xBB, 0xBF]),
        (
            UtfKind::Utf8,
            Endian::Big,
            0x2_33B4,
            &[0xF0, 0xA3, 0x8E, 0xB4],
        ),
        (UtfKind::Utf8, Endian::Big, 0, &[0]),
        (UtfKind::Utf8, Endian::Big, 0x7F, &[0x7F]),
        (UtfKind::Utf8, Endian::Big, 0x80, &[0xC2, 0x80]),
        (UtfKind::Utf8, Endian::Big, 0x7FF, &[0xDF, 0xBF]),
        (UtfKind::Utf8, Endian::Big, 0x800, &[0xE0, 0xA0, 0x80]),
        (UtfKind::Utf8, Endian::Big, 0xD7FF, &[0xED, 0x9F, 0xBF]),
        (UtfKind::Utf8, Endian::Big, 0xE000, &[0xEE, 0x80, 0x80]),
        (UtfKind::Utf8, Endian::Big, 0xFFFF, &[0xEF, 0xBF, 0xBF]),
        (
            UtfKind::Utf8,
            Endian::Big,
            0x1_0000,
            &[0xF0, 0x90, 0x80, 0x80],
        ),
        (
            UtfKind::Utf8,
            Endian::Big,
            0x10_FFFF,
            &[0xF4, 0x8F, 0xBF, 0xBF],
        ),
        (
            UtfKind::Utf16,
            Endian::Big,
            0x1_2345,
            &[0xD8, 0x08, 0xDF, 0x45],
        ),
        (
            UtfKind::Utf16,
            Endian::Little,
            0x1_2345,
            &[0x08, 0xD8, 0x45, 0xDF],
        ),
        (UtfKind::Utf16, Endian::Big, 0xD7FF, &[0xD7, 0xFF]),
        (UtfKind::Utf16, Endian::Little, 0xFFFF, &[0xFF, 0xFF]),
        (UtfKind::Utf16, Endian::Big, 0x1_0000, &[0xD8, 0, 0xDC, 0]),
        (
            UtfKind::Utf16,
            Endian::Big,
            0x10_FFFF,
            &[0xDB, 0xFF, 0xDF, 0xFF],
        ),
        (UtfKind::Utf32, Endian::Big, 0x1_2345, &[0, 1, 0x23, 0x45]),
        (
            UtfKind::Utf32,
            Endian::Little,
            0x10_FFFF,
            &[0xFF, 0xFF, 0x10, 0],
        ),
        (UtfKind::Utf32, Endian::Big, 0xE000, &[0, 0, 0xE0, 0]),
    ];
    for (kind, endian, character, want) in rows {
        match encode(kind, endian, character) {
            Ok(bytes) => {
                assert!(rt; bytes.as_slice() == want, "{character}");
                let len = bytes.len() as u8;
                let mut shifted = [0x33u8; 6];
                copy_bits(&mut shifted, 3, Bits::of(&bytes, 0, 8 * bytes.len() as u32));
                assert!(rt;
                    decode(kind, endian, Bits::of(&shifted, 0, 48), 3)
                        == Some((character as u32, len)),
                    "{character}"
                );
                assert!(rt;
                    decode(kind, endian, Bits::of(&shifted, 0, 2 + 8 * len as u32), 3).is_none(),
                    "{character}"
                );
            }
            Err(_) => assert!(rt; false, "{character}"),
        }
    }
}

#[test]
fn what_is_no_character_is_refused(rt: HostRuntime) {
    for value in [
        -1i128,
        0xD800,
        0xDBFF,
        0xDC00,
        0xDFFF,
        0x11_0000,
        i128::MAX,
        i128::MIN,
    ] {
        for kind in [UtfKind::Utf8, UtfKind::Utf16, UtfKind::Utf32] {
            assert!(rt; encode(kind, Endian::Little, value).is_err(), "{value}");
        }
    }
    // overlong forms, surrogates, numbers past 16#10FFFF, single bytes of longer forms
    let rows: [(UtfKind, Endian, [u8; 4]); 14] = [
        (UtfKind::Utf8, Endian::Big, [0xC0, 0x80, 0x80, 0x80]),
        (UtfKind::Utf8, Endian::Big, [0xC1, 0xBF, 0x80, 0x80]),
        (UtfKind::Utf8, Endian::Big, [0xE0, 0x9F, 0xBF, 0x80]),
        (UtfKind::Utf8, Endian::Big, [0xF0, 0x8F, 0xBF, 0xBF]),
        (UtfKind::Utf8, Endian::Big, [0xED, 0xA0, 0x80, 0x80]),
        (UtfKind::Utf8, Endian::Big, [0xF4, 0x90, 0x80, 0x80]),
        (UtfKind::Utf8, Endian::Big, [0x80, 0x80, 0x80, 0x80]),
        (UtfKind::Utf8, Endian::Big, [0xE2, 0x09, 0xA2, 0x80]),
        (UtfKind::Utf8, Endian::Big, [0xFF, 0xBF, 0xBF, 0xBF]),
        (UtfKind::Utf16, Endian::Big, [0xDC, 0x00, 0xD8, 0x00]),
        (UtfKind::Utf16, Endian::Big, [0xD8, 0x00, 0x00, 0x41]),
        (UtfKind::Utf16, Endian::Little, [0x00, 0xDC, 0x00, 0xDC]),
        (UtfKind::Utf32, Endian::Big, [0, 0, 0xD8, 0]),
        (UtfKind::Utf32, Endian::Big, [0, 0x11, 0, 0]),
    ];
    for (kind, endian, bytes) in rows {
        assert!(rt; decode(kind, endian, Bits::of(&bytes, 0, 32), 0).is_none());
    }
    character_reads_back(UtfKind::Utf8, Endian::Big, 0x20AC);
    one_character(UtfKind::Utf16, Endian::Big, 0x20AC, 0x1_F600);
}
