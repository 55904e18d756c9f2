// Document 01's worked examples, run through the definitions, and laws of steps that no proof needs: no code, only specs.
#![tactic(auto)]
