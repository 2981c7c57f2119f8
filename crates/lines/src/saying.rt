// What is said to a sheet, with its points as P, its relation as R and its set as S.

// Two points and a relation between them.
#[derive(Clone, Copy, PartialEq, Eq, Debug)]
pub struct Comparison<P, R> {
    pub x: P,
    pub y: P,
    pub relation: R,
}

#[derive(Clone, Copy, PartialEq, Eq, Debug)]
pub enum Saying<P, R, S> {
    Note(Comparison<P, R>),
    See { x: P, set: S },
    Ask(Comparison<P, R>),
}

// As it is typed: the fields are parts of the text that was read.
pub type Line<'a> = Saying<&'a [u8], &'a [u8], &'a [u8]>;
