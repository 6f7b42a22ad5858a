// 01's reading table, and that a call tells no difference in a register that the table does not name. No code.
#![tactic(auto)]
