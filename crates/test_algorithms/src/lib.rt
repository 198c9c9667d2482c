// SPDX-License-Identifier: Apache-2.0
//! For tests: the operators and the eight kinds by numbers.
#![tactic(auto)]

#[cfg(test)]
mod biquad;
#[cfg(test)]
mod companding;
#[cfg(test)]
mod decimator;
#[cfg(test)]
mod digits;
#[cfg(test)]
mod fir;
#[cfg(test)]
mod gains;
#[cfg(test)]
mod instance;
#[cfg(test)]
mod levels;
#[cfg(test)]
mod operators;
#[cfg(test)]
mod pairs;
#[cfg(test)]
mod tone;
