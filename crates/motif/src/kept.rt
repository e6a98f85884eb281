// What a session keeps of its motifs: how many are held, and how many bytes of them.
#[derive(Clone, Copy)]
pub struct Kept {
    pub held: usize,
    pub used: usize,
}
