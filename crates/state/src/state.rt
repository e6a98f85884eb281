// Where the judging of a job stands between two operators.
use place::Place;

// Where the judging of a job stands.
#[derive(Clone, Copy)]
pub struct State {
    pub at: usize,
    pub place: Place,
    pub performed: u32,
    pub records: usize,
}
