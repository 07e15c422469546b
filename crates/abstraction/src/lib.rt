// The abstract state graph of a program and a lemma list.
#![tactic(auto)]
