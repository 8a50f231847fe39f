// Lines at the limits of the format, and lines just beyond them.
#![tactic(auto)]

#[cfg(test)]
mod headings;
#[cfg(test)]
mod line_cases;
