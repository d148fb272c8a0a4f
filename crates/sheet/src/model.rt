// The states of a sheet, as types.
use std::marker::PhantomData;
use table::Table;

// The state in which a sheet can be changed.
#[derive(Clone, Copy)]
pub struct Open;

// The state in which a sheet can't be changed until it is reopened.
#[derive(Clone, Copy)]
pub struct Shut;

// A sheet of a plan, in the state S.
#[derive(Drop)]
pub struct Sheet<'p, S> {
    pub(crate) table: Table<'p>,
    pub(crate) state: PhantomData<S>,
}

// A sheet that can be changed.
pub type Draft<'p> = Sheet<'p, Open>;

// A sheet that can't be changed until it is reopened.
pub type Closed<'p> = Sheet<'p, Shut>;
