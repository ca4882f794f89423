use crate::saying::forms_say;
use std::alloc::Global;
use std::process::Abort;
use std::test::Fail;

/// Segments that may stand in a construction, in a pattern and in a generator.
const TYPED: [&str; 49] = [
    "X",
    "1",
    "-1",
    "$a",
    "X:4",
    "1:0",
    "X/integer",
    "X:3/signed",
    "X/unsigned",
    "X:16/big",
    "X:16/little",
    "X:16/native",
    "1:2/integer-signed-little-unit:8",
    "X:1/unit:1",
    "X:1/unit:256",
    "X:1/'unit':8-'big'",
    "X:2/binary",
    "X:2/bytes",
    "X:2/binary-unit:1",
    "X:2/unit:256-bytes",
    "X:2/binary-signed-little",
    "X:2/bitstring",
    "X:2/bits",
    "X:2/bits-unit:8",
    "X:2/unit:256-bitstring",
    "X:2/bits-unsigned-native",
    "1:2/binary",
    "X:0/bits",
    "X/utf8",
    "X/utf16",
    "X/utf32",
    "97/utf16-little",
    "$a/utf32-native",
    "X/utf8-big-signed",
    "\"ab\"",
    "\"ab\":16",
    "\"ab\"/integer",
    "\"ab\":4/signed-little-unit:2",
    "\"ab\"/utf8",
    "\"ab\"/utf16-little",
    "\"ab\"/utf32",
    "\"\"",
    "\"\":4/little",
    "X:8/binary-bytes",
    "X:8/bits-bitstring",
    "X:8/integer-integer",
    "X:8/signed-signed",
    "X:8/unit:8-unit:8",
    "X/utf8-utf8",
];

/// Segments without a size, which stand last in a construction and in a pattern, and in no generator.
const OPEN: [&str; 7] = [
    "X/binary",
    "X/bytes",
    "X/bitstring",
    "X/bits",
    "X/binary-unit:1",
    "X/bits-unit:256",
    "1/binary-little",
];

/// Segments that stand nowhere, with the cause.
const UNTYPED: &[(&str, &str)] = &[
    ("X:8/integer-binary", "two specs of a kind"),
    ("X:8/binary-bits", "two specs of a kind"),
    ("X/utf8-utf16", "two specs of a kind"),
    ("X/signed-unsigned", "two specs of a kind"),
    ("X/big-little", "two specs of a kind"),
    ("X/little-native", "two specs of a kind"),
    ("X:8/unit:1-unit:2", "two specs of a kind"),
    (
        "X:8/big-integer-signed-unit:1-big-unsigned",
        "two specs of a kind",
    ),
    ("X:8/unit:0", "unit out of range"),
    ("X:8/unit:257", "unit out of range"),
    ("X:8/binary-unit:0", "unit out of range"),
    ("X:8/unit:1_000-bits", "unit out of range"),
    (
        "X:8/unit:170141183460469231731687303715884105727",
        "unit out of range",
    ),
    ("X/unit:8", "unit without size"),
    ("X/integer-unit:1", "unit without size"),
    ("1/signed-unit:256-little", "unit without size"),
    ("\"ab\"/unit:8", "unit without size"),
    ("X/utf8-unit:8", "unit on utf"),
    ("$a/unit:1-utf32", "unit on utf"),
    ("\"ab\"/utf16-unit:1", "unit on utf"),
    ("X/float", "float segment"),
    ("X:64/float", "float segment"),
    ("X:64/big-float", "float segment"),
    ("\"ab\"/float", "float segment"),
    ("X:8/utf8", "size on utf"),
    ("97:16/utf16-little", "size on utf"),
    ("X:0/utf32", "size on utf"),
    ("\"ab\":8/utf8", "size on utf"),
    ("\"ab\":8/binary", "string as binary"),
    ("\"ab\":1/bytes", "string as binary"),
    ("\"\":2/bits", "string as binary"),
    ("\"ab\"/bitstring-unit:8", "string as binary"),
    ("X:8/utf8-utf16", "two specs of a kind"),
    ("X/float-binary", "two specs of a kind"),
    ("X:8/unit:0-unit:257", "two specs of a kind"),
    ("\"ab\"/binary-bits", "two specs of a kind"),
    ("X/float-unit:0", "unit out of range"),
    ("X:8/utf8-unit:257", "unit out of range"),
    ("X/unit:257", "unit out of range"),
    ("\"ab\"/binary-unit:0", "unit out of range"),
    ("X/float-unit:8", "float segment"),
    ("X:8/utf8-unit:8", "size on utf"),
    ("\"ab\"/binary", "string as binary"),
    ("\"ab\"/binary,0", "string as binary"),
    ("\"ab\"/bits,X/bits", "string as binary"),
];

/// What the check says of a segment in a construction, a pattern and a generator.
#[derive(Drop)]
struct Sides<'a> {
    built: &'a str,
    matched: &'a str,
    generated: &'a str,
}

/// Compares what the check says of a segment on each side.
fn on_sides(rt: &impl Abort, alloc: Global, segment: &str, wanted: Sides) -> Result<(), Fail> {
    let text = format!(in alloc; "main() -> X = <<>>, <<0,{segment}>>.")?;
    forms_say(rt, alloc, text.as_str(), wanted.built)?;
    let text = format!(in alloc; "main() -> X = <<>>, <<0,{segment}>> = X.")?;
    forms_say(rt, alloc, text.as_str(), wanted.matched)?;
    let text = format!(in alloc; "main() -> X = <<>>, [1||<<{segment}>> <= X].")?;
    forms_say(rt, alloc, text.as_str(), wanted.generated)
}

/// Compares what the check says of a segment that stands nowhere with its cause, at the segment's place.
fn has_cause(rt: &impl Abort, alloc: Global, segment: &str, cause: &str) -> Result<(), Fail> {
    let built = format!(in alloc; "3:25: {cause}")?;
    let generated = format!(in alloc; "3:27: {cause}")?;
    let built = built.as_str();
    let wanted = Sides {
        built,
        matched: built,
        generated: generated.as_str(),
    };
    on_sides(rt, alloc, segment, wanted)
}

#[test]
fn segments_have_a_type(rt: HostRuntime) -> Result<(), Fail> {
    let alloc = rt.alloc();
    for segment in TYPED {
        let wanted = Sides {
            built: "ok",
            matched: "ok",
            generated: "ok",
        };
        on_sides(&rt, alloc, segment, wanted)?;
    }
    Ok(())
}

#[test]
fn segments_without_a_type_have_a_cause(rt: HostRuntime) -> Result<(), Fail> {
    let alloc = rt.alloc();
    for (segment, cause) in UNTYPED {
        has_cause(&rt, alloc, segment, cause)?;
    }
    Ok(())
}

#[test]
fn segments_without_a_size_stand_last(rt: HostRuntime) -> Result<(), Fail> {
    let alloc = rt.alloc();
    for segment in OPEN {
        let generated = "3:27: open segment in generator";
        on_sides(
            &rt,
            alloc,
            segment,
            Sides {
                built: "ok",
                matched: "ok",
                generated,
            },
        )?;
        let front = format!(in alloc; "{segment},0")?;
        let matched = "3:25: open segment not last";
        let generated = "3:27: open segment not last";
        on_sides(
            &rt,
            alloc,
            front.as_str(),
            Sides {
                built: "ok",
                matched,
                generated,
            },
        )?;
    }
    Ok(())
}
