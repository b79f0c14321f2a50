// Lines, streams and steps: what no contract says about them.
mod lines;
mod steps;
mod streams;
