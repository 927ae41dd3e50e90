// What is asked for.
/// What is asked for: the session of a name alone, and the move of a number alone, where they are given; and whether
/// only the moves are that a running node does otherwise.
#[derive(Clone, Copy)]
pub struct Filter<'a> {
    pub session: Option<&'a str>,
    pub move_number: Option<u64>,
    pub node: bool,
}
