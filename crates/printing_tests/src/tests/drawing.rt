//! The places of boxes and arcs were worked out by hand: boxes of 52 pixels, 56 apart, from 60 on.
//! The farthest arc of list 1 is a stub over two places, which goes 14 + 2 * 5 pixels and takes
//! three quarters of them; faults make the band below 128.

use super::row_holds;
use h264_types::pictures::AuId;
use std::alloc::{AllocError, Global};
use std::process::Abort;
use std::test::Fail;
use stream_svg::{
    Caption, DrawnPicture, DrawnReference, DrawnUnit, EditMark, Layout, OutputUnit, PictureState,
    Point, Rect, RefList, SliceTypes, UnitKind, arc_of, boxes_are_apart, document,
    escapes_are_read_back, lay_out, push_escaped,
};
use unit_outcomes::ValidityFault;

const I: SliceTypes = SliceTypes {
    intra: true,
    predicted: false,
    bipredicted: false,
};

const P: SliceTypes = SliceTypes {
    intra: false,
    predicted: true,
    bipredicted: false,
};

const B: SliceTypes = SliceTypes {
    intra: false,
    predicted: false,
    bipredicted: true,
};

/// What the five units are drawn as: an I, a P and a B picture, which is output before the P
/// picture, a fault, and a unit without a picture.
const KINDS: [UnitKind; 5] = [
    UnitKind::Picture(DrawnPicture {
        types: I,
        position: 0,
        begins_period: true,
    }),
    UnitKind::Picture(DrawnPicture {
        types: P,
        position: 2,
        begins_period: false,
    }),
    UnitKind::Picture(DrawnPicture {
        types: B,
        position: 1,
        begins_period: false,
    }),
    UnitKind::Fault(ValidityFault::FrameNumGap),
    UnitKind::Empty,
];

/// What edits did to the five units: the first one's picture stayed, the second one is altered, and so
/// did the fault, which has no picture.
const MARKS: [EditMark; 5] = [
    EditMark {
        altered: false,
        picture: Some(PictureState::Stayed),
    },
    EditMark {
        altered: true,
        picture: Some(PictureState::Pending),
    },
    EditMark {
        altered: false,
        picture: Some(PictureState::Pending),
    },
    EditMark {
        altered: true,
        picture: None,
    },
    EditMark {
        altered: false,
        picture: None,
    },
];

/// By the place of a unit, the frames that its lists name: the list, the number of the frame's
/// unit, and whether it is a long-term frame. Unit 9 isn't drawn.
const REFERENCES: [(usize, RefList, u32, bool); 4] = [
    (1, RefList::Zero, 1, true),
    (2, RefList::Zero, 1, true),
    (2, RefList::One, 2, false),
    (2, RefList::One, 9, false),
];

/// The five units, of which the third is in doubt.
fn units(alloc: Global) -> Result<Vec<DrawnUnit>, AllocError> {
    let mut units = Vec::new(alloc);
    for (place, kind) in KINDS.iter().enumerate() {
        units.push(DrawnUnit {
            id: AuId::new(place as u32 + 1),
            kind: *kind,
            references: references(alloc, place)?,
            in_doubt: place == 2,
            mark: Some(MARKS[place]),
        })?;
    }
    Ok(units)
}

/// The frames that the lists of the unit at a place name.
fn references(alloc: Global, place: usize) -> Result<Vec<DrawnReference>, AllocError> {
    let mut references = Vec::new(alloc);
    for (at, list, frame, long_term) in REFERENCES.iter() {
        if *at == place {
            references.push(DrawnReference {
                list: *list,
                frame: AuId::new(*frame),
                long_term: *long_term,
            })?;
        }
    }
    Ok(references)
}

/// What is said of each of the units: its place.
fn captions(alloc: Global, count: usize) -> Result<Vec<Caption>, AllocError> {
    let mut captions = Vec::new(alloc);
    for place in 0..count {
        captions.push(Caption {
            lines: format!(in alloc; "<{place}>")?,
        })?;
    }
    Ok(captions)
}

/// The layout of the units.
fn layout_of(alloc: Global, units: &[DrawnUnit]) -> Result<Layout, AllocError> {
    if units.len() > 1000 {
        return Err(AllocError);
    }
    lay_out(alloc, units)
}

/// The document of the five units.
fn five_drawn(alloc: Global) -> Result<Vec<u8>, AllocError> {
    let units = units(alloc)?;
    let captions = captions(alloc, units.len())?;
    let layout = layout_of(alloc, &units)?;
    if layout.grid.units != units.len() || captions.len() != units.len() {
        return Err(AllocError);
    }
    document(alloc, &layout, &units, &captions, 7, true)
}

/// The document of the five units, made once more where a growth was refused.
fn five_drawn_again(alloc: Global) -> Result<Vec<u8>, AllocError> {
    match five_drawn(alloc) {
        Ok(text) => Ok(text),
        Err(_) => five_drawn(alloc),
    }
}

/// Whether a text has this part.
fn has(text: &[u8], part: &str) -> bool {
    text.windows(part.len().max(1))
        .any(|window| window == part.as_bytes())
}

#[test]
fn rows(rt: HostRuntime) -> Result<(), Fail> {
    boxes_are_apart();
    let units = units(rt.alloc())?;
    let layout = layout_of(rt.alloc(), &units)?;
    let shown = [
        OutputUnit {
            position: 0,
            place: 0,
            period: 1,
        },
        OutputUnit {
            position: 1,
            place: 2,
            period: 1,
        },
        OutputUnit {
            position: 2,
            place: 1,
            period: 1,
        },
    ];
    assert!(rt; layout.output.as_slice() == shown.as_slice());
    let grid = layout.grid;
    assert!(rt; grid.units == 5);
    let second = Rect {
        x: 116,
        y: 82,
        width: 52,
        height: 44,
    };
    let third = Rect {
        x: 172,
        y: 310,
        width: 52,
        height: 34,
    };
    assert!(rt; grid.stream_box(1) == second);
    assert!(rt; grid.output_box(2) == third);
    assert!(rt; (grid.width(), grid.height()) == (1100, 368));
    Ok(())
}

/// Of arcs: the place of the unit, which of its references it is, where the arc begins and ends,
/// and whether the frame's unit is drawn.
const ARCS: [(usize, usize, Point, Point, bool); 4] = [
    (
        1,
        0,
        Point { x: 132, y: 126 },
        Point { x: 96, y: 126 },
        true,
    ),
    (
        2,
        0,
        Point { x: 188, y: 126 },
        Point { x: 96, y: 126 },
        true,
    ),
    (2, 1, Point { x: 188, y: 82 }, Point { x: 152, y: 82 }, true),
    (2, 2, Point { x: 188, y: 82 }, Point { x: 46, y: 64 }, false),
];

/// Whether an arc begins and ends so.
fn arc_is(layout: &Layout, units: &[DrawnUnit], row: &(usize, usize, Point, Point, bool)) -> bool {
    let (place, which, from, to, is_whole) = *row;
    if layout.grid.units != units.len() || place >= units.len() {
        return false;
    }
    match units[place].references.get(which) {
        Some(reference) => {
            let arc = arc_of(layout.grid, units, place, *reference);
            arc.from == from && arc.to == to && arc.is_whole == is_whole
        }
        None => false,
    }
}

#[test]
fn arcs(rt: HostRuntime) -> Result<(), Fail> {
    let units = units(rt.alloc())?;
    let layout = layout_of(rt.alloc(), &units)?;
    for (row, arc) in ARCS.iter().enumerate() {
        row_holds(&rt, row, arc_is(&layout, &units, arc));
    }
    Ok(())
}

/// What the document of the five units has.
const PARTS: [&str; 16] = [
    "<svg xmlns=\"http://www.w3.org/2000/svg\" width=\"1100\" height=\"368\"",
    "aria-label=\"H.264 stream of 7 units: 5 from unit 1 on\"",
    "<title>&lt;3&gt;</title>",
    ">FrameNumGap</text>",
    ">no picture</text>",
    "<rect class=\"box b\" x=\"172\" y=\"82\" width=\"52\" height=\"44\" rx=\"3\"/>",
    "<path class=\"l0 far\" d=\"M132 126C132 145 96 145 96 126\"/>",
    "<path class=\"way\" d=\"M198 126V254L142 310\"/>",
    "<g class=\"u stayed\"><title>&lt;0&gt;</title>",
    "<g class=\"u altered pending\"><title>&lt;1&gt;</title>",
    "<g class=\"u altered\"><title>&lt;3&gt;</title>",
    "<rect class=\"hatch\" x=\"116\" y=\"82\" width=\"52\" height=\"44\" rx=\"3\"/>",
    "<circle class=\"disc\" cx=\"142\" cy=\"119\" r=\"3\"/>",
    "<g class=\"u pending\"><title>unit 3 position 1</title>",
    "<rect class=\"doubt\" x=\"172\" y=\"82\" width=\"52\" height=\"44\" rx=\"3\"/><text class=\"m t ask\" x=\"176\" y=\"79\">?</text>",
    ">in doubt: may be made of other frames than were meant</text>",
];

#[test]
fn refused_document(rt: HostRuntime) -> Result<(), Fail> {
    let text = five_drawn_again(rt.alloc())?;
    for (row, part) in PARTS.iter().enumerate() {
        row_holds(&rt, row, has(text.as_slice(), part));
    }
    row_holds(&rt, PARTS.len(), !has(text.as_slice(), "<3>"));
    Ok(())
}

#[test]
fn no_units(rt: HostRuntime) -> Result<(), Fail> {
    let units = Vec::new(rt.alloc());
    let layout = layout_of(rt.alloc(), &units)?;
    assert!(rt; layout.grid.units == 0);
    let text = document(rt.alloc(), &layout, &units, &[], 7, false)?;
    assert!(rt; has(text.as_slice(), "H.264 stream of 7 units: none is shown"));
    assert!(rt; !has(text.as_slice(), "doubt"));
    Ok(())
}

#[test]
fn escapes(rt: HostRuntime) -> Result<(), Fail> {
    escapes_are_read_back();
    let mut bytes = Vec::new(rt.alloc());
    push_escaped(&mut bytes, "a<b> & \"c\" 'd' \u{e9}".as_bytes())?;
    let escaped = "a&lt;b&gt; &amp; &quot;c&quot; &#39;d&#39; \u{e9}";
    assert!(rt; bytes.as_slice() == escaped.as_bytes());
    Ok(())
}
