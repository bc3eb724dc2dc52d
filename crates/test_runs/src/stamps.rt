//! Tests of sparse global time: the granules of the worked network, and stamps in them.

mod granules;
