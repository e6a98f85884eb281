// The names of operators and attributes as text.
use std::io;
use text::say;
use words::{AttributeName, OperatorName};

// An operator of the table by its name.
fn operator_text(name: OperatorName) -> Option<&'static str> {
    Some(match name {
        OperatorName::BeginSession => "BeginSession",
        OperatorName::EndSession => "EndSession",
        OperatorName::BeginPage => "BeginPage",
        OperatorName::EndPage => "EndPage",
        OperatorName::Comment => "Comment",
        OperatorName::OpenDataSource => "OpenDataSource",
        OperatorName::CloseDataSource => "CloseDataSource",
        OperatorName::SetDefaultGS => "SetDefaultGS",
        OperatorName::BeginStream => "BeginStream",
        OperatorName::ReadStream => "ReadStream",
        OperatorName::EndStream => "EndStream",
        OperatorName::ExecStream => "ExecStream",
        OperatorName::PopGS => "PopGS",
        OperatorName::PushGS => "PushGS",
        OperatorName::SetBrushSource => "SetBrushSource",
        OperatorName::SetColorSpace => "SetColorSpace",
        OperatorName::SetCursor => "SetCursor",
        OperatorName::SetCursorRel => "SetCursorRel",
        OperatorName::SetPenSource => "SetPenSource",
        OperatorName::SetPenWidth => "SetPenWidth",
        OperatorName::CloseSubPath => "CloseSubPath",
        OperatorName::NewPath => "NewPath",
        OperatorName::PaintPath => "PaintPath",
        OperatorName::LinePath => "LinePath",
        OperatorName::LineRelPath => "LineRelPath",
        OperatorName::Rectangle => "Rectangle",
        OperatorName::BeginImage => "BeginImage",
        OperatorName::ReadImage => "ReadImage",
        OperatorName::EndImage => "EndImage",
        OperatorName::BeginRastPattern => "BeginRastPattern",
        OperatorName::ReadRastPattern => "ReadRastPattern",
        OperatorName::EndRastPattern => "EndRastPattern",
        OperatorName::Unknown => return None,
    })
}

// An attribute of the table by its name.
fn attribute_text(name: AttributeName) -> Option<&'static str> {
    Some(match name {
        AttributeName::ColorSpace => "ColorSpace",
        AttributeName::NullBrush => "NullBrush",
        AttributeName::NullPen => "NullPen",
        AttributeName::PatternSelectID => "PatternSelectID",
        AttributeName::GrayLevel => "GrayLevel",
        AttributeName::RGBColor => "RGBColor",
        AttributeName::MediaSize => "MediaSize",
        AttributeName::MediaSource => "MediaSource",
        AttributeName::MediaType => "MediaType",
        AttributeName::Orientation => "Orientation",
        AttributeName::PageCopies => "PageCopies",
        AttributeName::BoundingBox => "BoundingBox",
        AttributeName::EndPoint => "EndPoint",
        AttributeName::PenWidth => "PenWidth",
        AttributeName::Point => "Point",
        AttributeName::NumberOfPoints => "NumberOfPoints",
        AttributeName::PointType => "PointType",
        AttributeName::ColorDepth => "ColorDepth",
        AttributeName::BlockHeight => "BlockHeight",
        AttributeName::ColorMapping => "ColorMapping",
        AttributeName::CompressMode => "CompressMode",
        AttributeName::DestinationSize => "DestinationSize",
        AttributeName::PatternPersistence => "PatternPersistence",
        AttributeName::PatternDefineID => "PatternDefineID",
        AttributeName::SourceHeight => "SourceHeight",
        AttributeName::SourceWidth => "SourceWidth",
        AttributeName::StartLine => "StartLine",
        AttributeName::PadBytesMultiple => "PadBytesMultiple",
        AttributeName::BlockByteLength => "BlockByteLength",
        AttributeName::CommentData => "CommentData",
        AttributeName::DataOrg => "DataOrg",
        AttributeName::Measure => "Measure",
        AttributeName::SourceType => "SourceType",
        AttributeName::UnitsPerMeasure => "UnitsPerMeasure",
        AttributeName::StreamName => "StreamName",
        AttributeName::StreamDataLength => "StreamDataLength",
        AttributeName::ErrorReport => "ErrorReport",
        AttributeName::Unknown => return None,
    })
}

// One of the reference's other operators.
fn foreign_operator(tag: u8) -> Option<&'static str> {
    Some(match tag {
        0x4f => "BeginFontHeader",
        0x50 => "ReadFontHeader",
        0x51 => "EndFontHeader",
        0x52 => "BeginChar",
        0x53 => "ReadChar",
        0x54 => "EndChar",
        0x55 => "RemoveFont",
        0x56 => "SetCharAttributes",
        0x58 => "SetColorTreatment",
        0x5f => "RemoveStream",
        0x62 => "SetClipReplace",
        0x64 => "SetCharAngle",
        0x65 => "SetCharScale",
        0x66 => "SetCharShear",
        0x67 => "SetClipIntersect",
        0x68 => "SetClipRectangle",
        0x69 => "SetClipToPage",
        0x6d => "SetHalftoneMethod",
        0x6e => "SetFillMode",
        0x6f => "SetFont",
        0x70 => "SetLineDash",
        0x71 => "SetLineCap",
        0x72 => "SetLineJoin",
        0x73 => "SetMiterLimit",
        0x74 => "SetPageDefaultCTM",
        0x75 => "SetPageOrigin",
        0x76 => "SetPageRotation",
        0x77 => "SetPageScale",
        0x78 => "SetPatternTxMode",
        0x7b => "SetROP",
        0x7c => "SetSourceTxMode",
        0x7d => "SetCharBoldValue",
        0x7f => "SetClipMode",
        0x80 => "SetPathToClip",
        0x81 => "SetCharSubMode",
        0x91 => "ArcPath",
        0x93 => "BezierPath",
        0x95 => "BezierRelPath",
        0x96 => "Chord",
        0x97 => "ChordPath",
        0x98 => "Ellipse",
        0x99 => "EllipsePath",
        0x9e => "Pie",
        0x9f => "PiePath",
        0xa1 => "RectanglePath",
        0xa2 => "RoundRectangle",
        0xa3 => "RoundRectanglePath",
        0xa8 => "Text",
        0xa9 => "TextPath",
        0xb6 => "BeginScan",
        0xb8 => "EndScan",
        0xb9 => "ScanLineRel",
        _ => return None,
    })
}

// One of the reference's other attributes.
fn foreign_attribute(n: u8) -> Option<&'static str> {
    Some(match n {
        2 => "PaletteDepth",
        6 => "PaletteData",
        12 => "PatternOrigin",
        13 => "NewDestinationSize",
        33 => "DeviceMatrix",
        34 => "DitherMatrixDataType",
        35 => "DitherOrigin",
        36 => "MediaDestination",
        41 => "PageAngle",
        42 => "PageOrigin",
        43 => "PageScale",
        44 => "ROP3",
        45 => "TxMode",
        47 => "CustomMediaSize",
        48 => "CustomMediaSizeUnits",
        50 => "DitherMatrixSize",
        51 => "DitherMatrixDepth",
        52 => "SimplexPageMode",
        53 => "DuplexPageMode",
        54 => "DuplexPageSide",
        65 => "ArcDirection",
        67 => "DashOffset",
        68 => "EllipseDimension",
        70 => "FillMode",
        71 => "LineCapStyle",
        72 => "LineJoinStyle",
        73 => "MiterLength",
        74 => "PenDashStyle",
        78 => "SolidLine",
        79 => "StartPoint",
        81 => "ControlPoint1",
        82 => "ControlPoint2",
        83 => "ClipRegion",
        84 => "ClipMode",
        102 => "DestinationBox",
        113 => "XStart",
        114 => "XEnd",
        115 => "NumberOfScanLines",
        161 => "CharAngle",
        162 => "CharCode",
        163 => "CharDataSize",
        164 => "CharScale",
        165 => "CharShear",
        166 => "CharSize",
        167 => "FontHeaderLength",
        168 => "FontName",
        169 => "FontFormat",
        170 => "SymbolSet",
        171 => "TextData",
        172 => "CharSubModeArray",
        175 => "XSpacingData",
        176 => "YSpacingData",
        177 => "CharBoldValue",
        _ => return None,
    })
}

// Says a tag that the table does not have: its name, if the reference has one, and its byte.
fn unknown_operator<P: Print>(out: &P, tag: u8) -> io::Result<()> {
    if let Some(name) = foreign_operator(tag) {
        print!(out; "{name}, ")?;
    }
    text::byte(out, tag)
}

// Says the operator of a tag.
pub fn operator<P: Print>(out: &P, tag: u8) -> io::Result<()> {
    match operator_text(words::operator_of(tag)) {
        Some(name) => out.print(name),
        None => unknown_operator(out, tag),
    }
}

// Says an attribute's number that the table does not have: its name, if the reference has one, and the number.
fn unknown_attribute<P: Print>(out: &P, n: u8) -> io::Result<()> {
    if let Some(name) = foreign_attribute(n) {
        print!(out; "{name}, ")?;
    }
    numbered(out, u16::from(n))
}

// Says an attribute by its number.
fn numbered<P: Print>(out: &P, n: u16) -> io::Result<()> {
    say(out, b"number ")?;
    text::number(out, u32::from(n))
}

// Says an attribute; its number may have two bytes.
pub fn attribute<P: Print>(out: &P, n: usize) -> io::Result<()> {
    let Ok(short) = u8::try_from(n) else {
        return numbered(out, (n % 65_536) as u16);
    };
    match attribute_text(words::attribute_of(short)) {
        Some(name) => out.print(name),
        None => unknown_attribute(out, short),
    }
}
