// Questions 1 and 2, each by one equation.
#![tactic(auto)]

pub mod question1; // question 1: the sizes and the lengths
pub mod question2; // question 2: the rules
pub mod groups; // the rules of question 2 by subject
