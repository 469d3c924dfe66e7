// Tests of calls that no row of a table shows. The program `tables` answers tables of cases, and says of a Dockerfile, its plans and its caches
// whatever an instruction or a build can say. What is left for functions are copies, orders, printed errors, devices of std, lists that grow
// together, and calls that only an embedder makes.
//
// A test function is proved, and what it holds with it. So a helper is lent what is heavy and answers by a `bool`, and the test asserts that.
#![tactic(auto)]

#[cfg(test)]
mod characters;
#[cfg(test)]
mod copies;
#[cfg(test)]
mod data;
#[cfg(test)]
mod devices;
#[cfg(test)]
mod directories;
