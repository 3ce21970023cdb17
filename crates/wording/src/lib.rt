// Register text and command text: what the readers and writers of the text answer and leave, and the laws that what is read
// can be written again and what is written can be read again. No code yet.
#![tactic(auto)]
