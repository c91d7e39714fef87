// What reading a text does on examples.
#![tactic(auto)]

#[cfg(test)]
mod columns;
#[cfg(test)]
mod headers;
#[cfg(test)]
mod kept;
#[cfg(test)]
mod limits;
#[cfg(test)]
mod lines;
#[cfg(test)]
mod numbers;
#[cfg(test)]
mod rows;
#[cfg(test)]
mod vetted;
#[cfg(test)]
mod words;
