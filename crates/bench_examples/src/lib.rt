// The bench's lines that document 01 marks P, gathered in specs/ as one table under one statement; there is no code here.
#![tactic(auto)]
