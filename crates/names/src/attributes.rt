// The numbers of attributes, by their names.
pub const COLOR_SPACE: u8 = 3;

pub const NULL_BRUSH: u8 = 4;

pub const NULL_PEN: u8 = 5;

pub const PATTERN_SELECT_ID: u8 = 8;

pub const GRAY_LEVEL: u8 = 9;

pub const RGB_COLOR: u8 = 11;

pub const MEDIA_SIZE: u8 = 37;

pub const MEDIA_SOURCE: u8 = 38;

pub const MEDIA_TYPE: u8 = 39;

pub const ORIENTATION: u8 = 40;

pub const PAGE_COPIES: u8 = 49;

pub const BOUNDING_BOX: u8 = 66;

pub const END_POINT: u8 = 69;

pub const PEN_WIDTH: u8 = 75;

pub const POINT: u8 = 76;

pub const NUMBER_OF_POINTS: u8 = 77;

pub const POINT_TYPE: u8 = 80;

pub const COLOR_DEPTH: u8 = 98;

pub const BLOCK_HEIGHT: u8 = 99;

pub const COLOR_MAPPING: u8 = 100;

pub const COMPRESS_MODE: u8 = 101;

pub const DESTINATION_SIZE: u8 = 103;

pub const PATTERN_PERSISTENCE: u8 = 104;

pub const PATTERN_DEFINE_ID: u8 = 105;

pub const SOURCE_HEIGHT: u8 = 107;

pub const SOURCE_WIDTH: u8 = 108;

pub const START_LINE: u8 = 109;

pub const PAD_BYTES_MULTIPLE: u8 = 110;

pub const BLOCK_BYTE_LENGTH: u8 = 111;

pub const COMMENT_DATA: u8 = 129;

pub const DATA_ORG: u8 = 130;

pub const MEASURE: u8 = 134;

pub const SOURCE_TYPE: u8 = 136;

pub const UNITS_PER_MEASURE: u8 = 137;

pub const STREAM_NAME: u8 = 139;

pub const STREAM_DATA_LENGTH: u8 = 140;

pub const ERROR_REPORT: u8 = 143;
