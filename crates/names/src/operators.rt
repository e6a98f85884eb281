// The tags of operators, by their names.
pub const BEGIN_SESSION: u8 = 0x41;

pub const END_SESSION: u8 = 0x42;

pub const BEGIN_PAGE: u8 = 0x43;

pub const END_PAGE: u8 = 0x44;

pub const COMMENT: u8 = 0x47;

pub const OPEN_DATA_SOURCE: u8 = 0x48;

pub const CLOSE_DATA_SOURCE: u8 = 0x49;

pub const SET_DEFAULT_GS: u8 = 0x57;

pub const BEGIN_STREAM: u8 = 0x5b;

pub const READ_STREAM: u8 = 0x5c;

pub const END_STREAM: u8 = 0x5d;

pub const EXEC_STREAM: u8 = 0x5e;

pub const POP_GS: u8 = 0x60;

pub const PUSH_GS: u8 = 0x61;

pub const SET_BRUSH_SOURCE: u8 = 0x63;

pub const SET_COLOR_SPACE: u8 = 0x6a;

pub const SET_CURSOR: u8 = 0x6b;

pub const SET_CURSOR_REL: u8 = 0x6c;

pub const SET_PEN_SOURCE: u8 = 0x79;

pub const SET_PEN_WIDTH: u8 = 0x7a;

pub const CLOSE_SUB_PATH: u8 = 0x84;

pub const NEW_PATH: u8 = 0x85;

pub const PAINT_PATH: u8 = 0x86;

pub const LINE_PATH: u8 = 0x9b;

pub const LINE_REL_PATH: u8 = 0x9d;

pub const RECTANGLE: u8 = 0xa0;

pub const BEGIN_IMAGE: u8 = 0xb0;

pub const READ_IMAGE: u8 = 0xb1;

pub const END_IMAGE: u8 = 0xb2;

pub const BEGIN_RAST_PATTERN: u8 = 0xb3;

pub const READ_RAST_PATTERN: u8 = 0xb4;

pub const END_RAST_PATTERN: u8 = 0xb5;
